// A range of the entries of a list, cut down to those that there are.
#![tactic(auto)]

ghost use Rattle.std.specs.Prelude.{◌≡◌};
ghost use Rattle.draw_ranges.specs.Ranges.{range_within};

// So many entries from a place on.
#[derive(Clone, Copy)]
pub struct EntryRange {
    pub first: usize,
    pub many: usize,
}

// Of n entries those number first, first + 1 and so on, `many` of them as far as there are any.
pub fn range_within(first: usize, many: usize, n: usize) -> EntryRange
    ensures { result ≡ range_within first many n }
{
    let from = paths::lesser(first, n);
    let some = paths::lesser(many, n - from);
    EntryRange {
        first: from,
        many: some,
    }
}
