//! Laws on the definitions, as functions whose contracts they are.
ghost use Rattle.tk_copy.specs.Copying.{UnusableBreaks};

/// An undo log whose first byte is another than that of the magic word breaks the first rule, whatever files stand beside it.
pub fn unusable_breaks()
    ensures { UnusableBreaks }
{}
