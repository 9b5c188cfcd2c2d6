//! A step of a translation.
ghost use Rattle.std.specs.Prelude.{◌≡◌, ◌++◌, ◌∷◌, [], None, IfOk};
ghost use Rattle.templates.specs.Pending.{GoesOn, IsPending, Moves, with_next};

use crate::frame::Frame;
use crate::parts::part;
use crate::source::Source;
use lr_base::NoMemory;

/// Goes on with the template that was begun last, beside which the others stand: by its next part, or, where it has none left,
/// it is ended. Gives the template to go on with; `None` where no template is begun any more.
pub fn step<'a>(
    source: &Source<'a, '_>,
    last: Frame<'a>,
    frames: &mut Vec<Frame<'a>>,
    gathered: &mut Vec<u8>,
) -> Result<Option<Frame<'a>>, NoMemory>
    requires { IsPending source.now (frames.old.items ++ last ∷ []) }
    ensures goes { IfOk result (λ next. GoesOn source.now (frames.old.items ++ last.entry ∷ []) (with_next frames.new.items next)
        gathered.old.items gathered.new.items) }
    ensures moves { IfOk result (λ next. Moves (frames.old.items ++ last.entry ∷ []) (with_next frames.new.items next)) }
    ensures ended { IfOk result (λ next. next ≡ None → frames.new.items ≡ []) }
{
    let Some((next, rest)) = last.parts.split_first() else {
        return Ok(frames.pop());
    };
    let left = Frame {
        parts: rest,
        kids: last.kids,
    };
    Ok(Some(part(source, next, left, frames, gathered)?))
}
