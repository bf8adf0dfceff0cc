/// Whether a request succeeded, and whether it updated the contents.
#[derive(Clone, Copy, PartialEq, Eq)]
pub struct Applied {
    pub ok: bool,
    pub updated: bool,
}
