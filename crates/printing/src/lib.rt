// A text's bytes, for a program to print.
#![tactic(auto)]

ghost use Rattle.std.specs.Prelude.{◌≡◌, ◌≤◌, true, min, length, is_ok, IfOk};
ghost use Rattle.page.specs.Pages.{last, overlay, written};
ghost use Rattle.printing.specs.Pages.{put_page};

use page::{Pen, Text};
use std::alloc::{AllocError, Global};

// Puts a text at the front of a page, as far as the page goes, and answers how many bytes it has.
fn put_front<T: Text>(text: &T, page: &mut [u8]) -> usize
    ensures size { result ≡ min (length (T.Text.text text.now)) last }
    ensures page { length (T.Text.text text.now) ≤ length page.old → page.new ≡ written (T.Text.text text.now) page.old }
    ensures laid { page.new ≡ overlay page.old 0 (T.Text.text text.now) }
{
    let mut pen = Pen { page, at: 0 };
    text.put(&mut pen);
    pen.at
}

/// Puts a text at the front of a page that a program keeps, and answers how many bytes it has. A page that is too short is made anew, as
/// long as the text: that wants memory, and the text is put twice. Where no memory is found, the old page holds as much of the text as it
/// has room for. What the page holds is `put_page`.
pub fn put_on<T: Text>(alloc: Global, text: &T, page: &mut Vec<u8>) -> Result<usize, AllocError>
    ensures size { IfOk result (λ size. size ≡ length (T.Text.text text.now)) }
    ensures fits { length (T.Text.text text.now) ≤ length page.old.items → is_ok result ≡ true }
    ensures page { page.new.items ≡ put_page (T.Text.text text.now) page.old.items (is_ok result) }
    ensures there { IfOk result (λ size. size ≤ length page.new.items) }
{
    let size = put_front(text, page);
    if size > page.len() {
        *page = vec![in alloc; 0u8; size]?;
        put_front(text, page);
    }
    Ok(size)
}

#[cfg(test)]
mod tests {
    use super::*;
    use page::Piece;
    use std::test::Fail;

    #[test]
    fn put_on_a_page_that_is_too_short_and_again(rt: HostRuntime) -> Result<(), Fail> {
        let line: &[Piece] = &["hop ".into(), 15u8.into(), "\n".into()];
        let mut page = vec![in rt.alloc(); 0u8; 4]?;
        assert_eq!(rt; put_on(rt.alloc(), &line, &mut page)?, 7);
        assert_eq!(rt; page.as_slice(), b"hop 15\n".as_slice());
        let word: &[Piece] = &["hop".into()];
        assert_eq!(rt; put_on(rt.alloc(), &word, &mut page)?, 3);
        assert_eq!(rt; page.as_slice(), b"hop 15\n".as_slice());
        Ok(())
    }
}
