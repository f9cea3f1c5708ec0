//! The numbers at the ends of names.
ghost use Rattle.std.specs.Prelude.{◌≡◌};
ghost use Rattle.std.specs.Option.{is_some};
ghost use Rattle.c_meaning.specs.Entries.{number_at_end};
ghost use Rattle.c_stepper.specs.Marks.{next_mark, has_number};

/// What stands after the last `_` so far: something else or no `_`, nothing yet, or digits.
#[derive(Clone, Copy)]
enum Mark {
    Outside,
    Begun,
    Counted,
}

impl Mark {
    /// The mark after one more byte.
    fn next(self, byte: u8) -> Mark
        ensures { result ≡ next_mark self byte }
    {
        if byte == b'_' {
            return Mark::Begun;
        }
        if byte < b'0' {
            return Mark::Outside;
        }
        if byte > b'9' {
            return Mark::Outside;
        }
        match self {
            Mark::Outside => Mark::Outside,
            Mark::Begun => Mark::Counted,
            Mark::Counted => Mark::Counted,
        }
    }

    fn has_number(self) -> bool
        ensures { result ≡ has_number self }
    {
        match self {
            Mark::Counted => true,
            _ => false,
        }
    }
}

/// Whether digits stand after the last `_` of a name.
#[tactic(auto, using(crate::proofs::Marking::ends_so))]
pub fn ends_in_number(name: &[u8]) -> bool
    ensures { result ≡ is_some (number_at_end name.now) }
{
    let mut mark = Mark::Outside;
    let mut rest = name;
    while let [first, after @ ..] = rest {
        mark = mark.next(*first);
        rest = after;
    }
    mark.has_number()
}
