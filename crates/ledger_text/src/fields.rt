//! The fields of a line.
ghost use Rattle.std.specs.Prelude.{◌≡◌, ◌∷◌, []};
ghost use Rattle.std.specs.List.{position_or_len};
ghost use Rattle.std.specs.Option.{option_map_or};
ghost use Rattle.ledger_text.specs.Fields.{fields_of, is_space};

/// The fields of a line that are left, from one space to the next.
#[derive(Clone, Copy)]
pub struct Fields<'a> {
    rest: Option<&'a [u8]>,
}

impl<'a> Fields<'a> {
    ghost use Rattle.std.specs.Prelude.{◌≡◌, ◌≢◌, []};
    ghost use Rattle.std.specs.Bool.{MatchBool};
    ghost use Rattle.ledger_text.specs.Fields.{fields_of, first_field, left_of, next_fields};

    /// All fields of a line.
    #[inline]
    pub fn new(line: &'a [u8]) -> Fields<'a>
        ensures { left_of result ≡ fields_of line.now }
    {
        Fields { rest: Some(line) }
    }

    /// The next field, empty where there is none.
    #[inline(always)]
    pub fn next(&mut self) -> &'a [u8]
        ensures field { result.now ≡ first_field (left_of self.old) }
        ensures left { left_of self.new ≡ next_fields (left_of self.old) }
    {
        let Some(rest) = self.rest else {
            return &[];
        };
        let (field, rest) = split_field(rest);
        self.rest = rest;
        field
    }

    /// Is no field left?
    #[inline]
    #[tactic(auto, using(crate::proofs::Splitting::has_fields))]
    pub fn is_at_end(&self) -> bool
        ensures { MatchBool result (left_of self.now ≡ []) (left_of self.now ≢ []) }
    {
        match self.rest {
            Some(_) => false,
            None => true,
        }
    }
}

/// The number of bytes before the first space.
#[inline]
fn field_len(bytes: &[u8]) -> usize
    ensures { result ≡ position_or_len is_space bytes.now }
{
    bytes.iter().take_while(|byte| **byte != b' ').count()
}

/// The bytes before the first space, and those after it, None where there is no space.
#[inline]
#[tactic(auto, using(crate::proofs::Splitting::split_some, crate::proofs::Splitting::split_none))]
fn split_field(bytes: &[u8]) -> (&[u8], Option<&[u8]>)
    ensures { fields_of bytes.now ≡ result.0.now ∷ option_map_or (λ rest. fields_of rest.now) result.1 [] }
{
    let len = field_len(bytes);
    if len < bytes.len() {
        (&bytes[..len], Some(&bytes[len + 1..]))
    } else {
        (bytes, None)
    }
}
