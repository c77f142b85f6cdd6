// One line, built in a buffer of its own: there its bytes need no look at a page's end, and go onto the page at once.
ghost use Rattle.std.specs.Prelude.{◌≡◌, ◌+◌, ◌<◌, ◌≤◌, [], ◌∷◌, ◌++◌, length, take, decimal};
ghost use Rattle.page.specs.Pens.{Wrote};

use page::Pen;

// The digits of a number from a place on; answers the place behind them.
fn put_digits(line: &mut [u8], at: usize, n: u64) -> usize
    requires { at + length (decimal n) ≤ length line.old }
    ensures place { result ≡ at + length (decimal n) }
    ensures text { take result line.new ≡ take at line.old ++ decimal n }
{
    let last = if n < 10 {
        at
    } else {
        put_digits(line, at, n / 10)
    };
    line[last] = b'0' + (n % 10) as u8;
    last + 1
}

// A number, and a byte behind it.
pub fn put_number(line: &mut [u8], at: usize, n: u64, behind: u8) -> usize
    requires { at + length (decimal n) < length line.old }
    ensures place { result ≡ at + length (decimal n) + 1 }
    ensures text { take result line.new ≡ take at line.old ++ (decimal n ++ (behind ∷ [])) }
{
    let end = put_digits(line, at, n);
    line[end] = behind;
    end + 1
}

// A word, and a byte behind it.
pub fn put_word(line: &mut [u8], at: usize, word: &[u8], behind: u8) -> usize
    requires { at + length word.now < length line.old }
    ensures place { result ≡ at + length word.now + 1 }
    ensures text { take result line.new ≡ take at line.old ++ (word.now ++ (behind ∷ [])) }
{
    let mut end = at;
    for byte in word {
        line[end] = *byte;
        end += 1;
    }
    line[end] = behind;
    end + 1
}

// Bytes at the pen's place: at once where the page goes on so far.
pub fn put_bytes(pen: &mut Pen, bytes: &[u8])
    ensures { Wrote pen.old pen.new bytes.now }
{
    let at = pen.at;
    if at < pen.page.len() && bytes.len() <= pen.page.len() - at {
        let end = at + bytes.len();
        pen.page[at..end].copy_from_slice(bytes);
        pen.at = end;
    } else {
        pen.bytes(bytes)
    }
}
