// Text on a lent page of bytes.
#![tactic(auto)]

ghost use Rattle.std.specs.Prelude.{◌≡◌, ℕ, min, List, [], ◌∷◌, length};
ghost use Rattle.page.specs.Pages.{piece_text, last, joined, fitting, written};
ghost use Rattle.page.specs.Pens.{Wrote};
ghost use Rattle.page.specs.declared.Piece.TheVariants.{Words, Number};

mod pen;

use itoa::Buffer;
pub use pen::Pen;

// What can be put on a page.
pub trait Text {
    ghost text: { Self → List ℕ };

    // Puts the text at the pen's place, as far as the page goes, and moves the pen behind it.
    fn put(&self, pen: &mut Pen)
        ensures { Wrote pen.old pen.new (text self.now) };
}

// A byte, as it stands.
impl Text for u8 {
    ghost text = { λ byte. byte ∷ [] };

    fn put(&self, pen: &mut Pen) {
        if pen.at < pen.page.len() {
            pen.page[pen.at] = *self;
        }
        pen.at = pen.at.saturating_add(1);
    }
}

// Texts, one behind another.
impl<'a, T: Text> Text for &'a [T] {
    ghost text = { λ items. joined (λ place. T.Text.text) 0 items.now };

    fn put(&self, pen: &mut Pen) {
        for item in *self {
            item.put(pen);
        }
    }
}

// A piece of text: words as they stand, or a number in decimal.
// No `write!`: its `fmt::Result` may be an error whatever the writer is, and putting text on a page cannot fail.
#[derive(Clone, Copy)]
pub enum Piece<'a> {
    Words(&'a str),
    Number(u64),
}

impl<'a> From<&'a str> for Piece<'a> {
    ghost from_gives = { λ words r. r ≡ Words words };

    fn from(words: &'a str) -> Piece<'a> {
        Piece::Words(words)
    }
}

// One for each width, since the gate refuses impls that a macro writes.
impl From<u8> for Piece<'_> {
    ghost from_gives = { λ n r. r ≡ Number n };

    fn from(n: u8) -> Self {
        Piece::Number(u64::from(n))
    }
}

impl From<u16> for Piece<'_> {
    ghost from_gives = { λ n r. r ≡ Number n };

    fn from(n: u16) -> Self {
        Piece::Number(u64::from(n))
    }
}

impl From<u32> for Piece<'_> {
    ghost from_gives = { λ n r. r ≡ Number n };

    fn from(n: u32) -> Self {
        Piece::Number(u64::from(n))
    }
}

impl From<u64> for Piece<'_> {
    ghost from_gives = { λ n r. r ≡ Number n };

    fn from(n: u64) -> Self {
        Piece::Number(n)
    }
}

impl<'a> Text for Piece<'a> {
    ghost text = { piece_text };

    fn put(&self, pen: &mut Pen) {
        match *self {
            Piece::Words(words) => pen.bytes(words.as_bytes()),
            Piece::Number(n) => pen.bytes(Buffer::new().format(n).as_bytes()),
        }
    }
}

// How many bytes a text has; usize::MAX where it has more.
pub fn size<T: Text>(text: &T) -> usize
    ensures { result ≡ min (length (T.Text.text text.now)) last }
{
    let mut pen = Pen {
        page: &mut [],
        at: 0,
    };
    text.put(&mut pen);
    pen.at
}

// Writes a text at the front of a page, and answers its length; where it does not fit, nothing is written.
pub fn write<T: Text>(text: &T, page: &mut [u8]) -> Option<usize>
    ensures value { result ≡ fitting (T.Text.text text.now) page.old }
    ensures page { page.new ≡ written (T.Text.text text.now) page.old }
{
    let size = size(text);
    if size > page.len() {
        return None;
    }
    let mut pen = Pen { page, at: 0 };
    text.put(&mut pen);
    Some(size)
}
