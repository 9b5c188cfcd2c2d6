/// The commands of the program.
#[derive(Clone, Copy, Debug, PartialEq, Eq)]
pub enum CommandName {
    Tokens,
    Check,
    Tables,
    Run,
    Gen,
    Load,
}
