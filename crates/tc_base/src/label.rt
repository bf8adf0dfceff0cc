//! Labels of copies.
ghost use Rattle.std.specs.Prelude.{◌≡◌, ◌≤◌, ◌∷◌, [], true, false, take, replicate, is_some, IfSome};
ghost use Rattle.std.specs.List.{list_all};
ghost use Rattle.tc_base.specs.Labels.{is_label, is_label_byte};

use crate::limits::LABEL_MOST;

/// The label of a copy: 1 to 64 lower-case letters, digits or `_`. It takes no memory.
#[derive(Clone, Copy)]
pub struct Label {
    bytes: [u8; LABEL_MOST],
    len: usize,
    ghost low: { len ≤ 64 },
    ghost is_one: { is_label (take len bytes) ≡ true },
}

fn is_label_byte(byte: u8) -> bool
    ensures { result ≡ is_label_byte byte }
{
    byte.is_ascii_lowercase() || byte.is_ascii_digit() || byte == b'_'
}

fn are_label_bytes(text: &[u8]) -> bool
    ensures { result ≡ list_all is_label_byte text.now }
{
    text.iter().all(|b| is_label_byte(*b))
}

/// Whether bytes are a label.
pub fn is_label(text: &[u8]) -> bool
    ensures { result ≡ is_label text.now }
{
    let len = text.len();
    if len == 0 || len > LABEL_MOST {
        return false;
    }
    are_label_bytes(text)
}

impl Label {
    ghost use Rattle.tc_base.specs.LabelTexts.{text_of};

    /// The label of these bytes, or none where they are no label.
    pub fn of(text: &[u8]) -> Option<Label>
        ensures some { is_some result ≡ is_label text.now }
        ensures text { IfSome result (λ label. text_of label ≡ text.now) }
    {
        if !is_label(text) {
            return None;
        }
        let mut bytes = [0; LABEL_MOST];
        bytes[..text.len()].copy_from_slice(text);
        Some(Label {
            bytes,
            len: text.len(),
        })
    }

    pub fn as_slice(&self) -> &[u8]
        ensures text { result.now ≡ text_of self.now }
        ensures is_one { is_label result.now ≡ true }
    {
        &self.bytes[..self.len]
    }
}

/// Rows: `mon` and `a_9` are labels, and so are 64 letters; `a/b`, `A`, no bytes and 65 letters aren't.
pub fn label_rows()
    ensures mon { is_label (109 ∷ 111 ∷ 110 ∷ []) ≡ true }
    ensures marked { is_label (97 ∷ 95 ∷ 57 ∷ []) ≡ true }
    ensures longest { is_label (replicate 64 97) ≡ true }
    ensures path { is_label (97 ∷ 47 ∷ 98 ∷ []) ≡ false }
    ensures upper { is_label (65 ∷ []) ≡ false }
    ensures none { is_label [] ≡ false }
    ensures too_long { is_label (replicate 65 97) ≡ false }
{}
