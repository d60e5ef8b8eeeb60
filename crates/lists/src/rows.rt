// The list as far as it is printed: words, each with the byte that ends it.
ghost use Rattle.std.specs.Prelude.{◌≡◌, ◌+◌, ◌≤◌, [], ◌∷◌, ◌++◌, length, codes, decimal};
ghost use Rattle.arrayvec.specs.ArrayVec.{array_vec_len};
ghost use Rattle.lists.specs.Lists.{header, refusal};
ghost use Rattle.lists.specs.Calls.{total_word, row_words};

use arrayvec::ArrayVec;
use itoa::{Buffer, Integer};
use pages::PageFault;

// No list takes more bytes, whatever the page.
pub const MOST_BYTES: usize = 2048;

// It is made apart, and put in its place as a whole.
pub(crate) type List = ArrayVec<u8, MOST_BYTES>;

// A row of the list, and its words: the reading with its total, where one was found.
#[derive(Clone, Copy)]
pub(crate) struct Row<'a> {
    pub(crate) number: usize,
    pub(crate) reading: &'a [u8],
    pub(crate) total: Option<u64>,
    pub(crate) looked: usize,
    pub(crate) outcome: &'static [u8],
}

fn put(list: &mut List, word: &[u8], end: u8)
    requires { array_vec_len list.old + length word.now + 1 ≤ 2048 }
    ensures items { list.new.items ≡ list.old.items ++ (word.now ++ end ∷ []) }
    ensures len { array_vec_len list.new ≡ array_vec_len list.old + length word.now + 1 }
{
    list.try_extend_from_slice(word).unwrap();
    list.push(end);
}

fn put_number<N: Integer>(list: &mut List, n: N, end: u8)
    requires { array_vec_len list.old + length (N.text n) + 1 ≤ 2048 }
    ensures items { list.new.items ≡ list.old.items ++ (N.text n ++ end ∷ []) }
    ensures len { array_vec_len list.new ≡ array_vec_len list.old + length (N.text n) + 1 }
{
    put(list, Buffer::new().format(n).as_bytes(), end);
}

fn put_total(list: &mut List, total: Option<u64>, end: u8)
    requires { array_vec_len list.old + length (total_word total) + 1 ≤ 2048 }
    ensures items { list.new.items ≡ list.old.items ++ (total_word total ++ end ∷ []) }
    ensures len { array_vec_len list.new ≡ array_vec_len list.old + length (total_word total) + 1 }
{
    match total {
        Some(total) => put_number(list, total, end),
        None => put(list, b"-", end),
    }
}

pub(crate) fn put_row(list: &mut List, row: &Row)
    requires { array_vec_len list.old + length (row_words row.now) ≤ 2048 }
    ensures { list.new.items ≡ list.old.items ++ row_words row.now }
{
    let Row {
        number,
        reading,
        total,
        looked,
        outcome,
    } = *row;
    put_number(list, number, b' ');
    put(list, reading, b' ');
    put_total(list, total, b' ');
    put_number(list, looked, b' ');
    put(list, outcome, b'\n');
}

#[tactic(auto, unfolding(crate::specs::Lists::header))]
pub(crate) fn put_header(list: &mut List)
    requires { array_vec_len list.old + 34 ≤ 2048 }
    ensures { list.new.items ≡ list.old.items ++ header }
{
    put(list, b"line reading total looked outcome", b'\n');
}

// The list of a bad page: the number and the place that its fault returns.
#[tactic(auto, using(crate::proofs::Words::decimal_short))]
pub(crate) fn list_refusal(fault: PageFault) -> List
    ensures { result.items ≡ refusal fault }
{
    let mut list = ArrayVec::new();
    put(&mut list, b"refused", b' ');
    put_number(&mut list, fault.number(), b' ');
    put(&mut list, b"at", b' ');
    put_number(&mut list, fault.place(), b'\n');
    list
}
