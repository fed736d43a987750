// What the columns of a token table and the directory of a file say.
ghost use Rattle.std.specs.Prelude.{◌≡◌, ◌<◌, length, get_or};
ghost use Rattle.values.specs.definitions.Bytes.{same_bytes};
ghost use Rattle.checking.specs.inner_contracts.Directory.{name_in, sort_class};
ghost use Rattle.checking.specs.inner_contracts.ClassSearch.{FirstOf};
ghost use Rattle.checking.specs.inner_contracts.DirectoryReads.{MemberRow, MemberPart};

use crate::kinds::kind_of;
use crate::layout::{INTERFACE_COUNT_ROW, MEMBER_COUNT_ROWS, MEMBER_ROWS, MOST_MEMBERS};
use text::walks::class_at;
use values::{Kind, same_bytes};

// A row of the directory, or of the offsets.
pub fn row(d: &[u16], i: usize) -> usize
    ensures { (result ≡ get_or d.now i 0) × (result < 65536) }
{
    d.get(i).map_or(0, |&n| usize::from(n))
}

// The first token of a class from number `from` on; the count of tokens if there is none.
pub fn first_of(classes: &[u8], class: u8, from: usize) -> usize
    ensures { FirstOf classes.now class from result }
{
    for i in from..classes.len() {
        if classes[i] == class {
            return i;
        }
    }
    from.max(classes.len())
}

// The bytes of token number i: those that the text has of them.
pub fn name<'a>(text: &'a [u8], offsets: &[u16], lengths: &[u8], i: usize) -> &'a [u8]
    ensures bytes { result.now ≡ name_in text.now offsets.now lengths.now i }
    ensures short { length result.now < 256 }
{
    let start = row(offsets, i);
    let size = class_at(lengths, i) as usize;
    let all = text.len();
    if all <= start {
        return &text[0..0];
    }
    if all - start <= size {
        return &text[start..all];
    }
    let end = start + size;
    &text[start..end]
}

pub fn same_name(text: &[u8], offsets: &[u16], lengths: &[u8], i: usize, j: usize) -> bool
    ensures { result ≡ same_bytes (name_in text.now offsets.now lengths.now i)
        (name_in text.now offsets.now lengths.now j) }
{
    same_bytes(
        name(text, offsets, lengths, i),
        name(text, offsets, lengths, j),
    )
}

// The row of member number m of interface number `face`, or 0.
pub fn member_at(d: &[u16], face: usize, m: usize) -> usize
    ensures { MemberRow d.now face m result }
{
    if row(d, INTERFACE_COUNT_ROW) <= face {
        return 0;
    }
    if row(d, MEMBER_COUNT_ROWS + face) <= m {
        return 0;
    }
    row(d, MEMBER_ROWS + face * MOST_MEMBERS + m)
}

// The class that says the sort of member number m of interface number `face`.
#[tactic(auto, using(crate::proofs::laws::DirectoryLaws::sort_stands))]
pub fn member_sort(classes: &[u8], d: &[u16], face: usize, m: usize) -> u8
    ensures { MemberPart classes.now d.now face m (λ x. sort_class x.sort) result }
{
    class_at(classes, member_at(d, face, m))
}

// The kind of member number m of interface number `face`.
pub fn member_kind(classes: &[u8], d: &[u16], face: usize, m: usize) -> Kind
    ensures { MemberPart classes.now d.now face m (λ x. x.kind) result }
{
    kind_of(class_at(classes, member_at(d, face, m) + 3))
}
