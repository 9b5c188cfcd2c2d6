ghost use Rattle.layout_laws.specs.Laws.{LayoutLaw};

/// The normal layout of a sheet reads as this sheet.
pub fn layout_law()
    ensures { LayoutLaw }
{}
