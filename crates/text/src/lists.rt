// Lists of numbers in a field.
ghost use Rattle.std.specs.Prelude.{◌≡◌, ℕ, ◌<◌, [], ◌∷◌, length, is_ok, Some, MatchOption, vec_len, vec_capacity};
ghost use Rattle.text.specs.Text.{front, trimmed, cut, and_then};
ghost use Rattle.text.specs.Numbers.{number_in};
ghost use Rattle.text.specs.Fields.{next_text, Passes};
ghost use Rattle.text.specs.Lists.{semicolon, in_item, list_in, ListRead, front_in, Stopped};

use crate::fields::{Fault, Fields, first_text};
use crate::numbers::{Number, number_in, plain_number};

// What stands behind the semicolon that the rest begins with. None where nothing is left.
fn others(rest: &[u8]) -> Option<&[u8]>
    ensures { MatchOption result (rest.now ≡ []) (λ others. (c : ℕ) × (rest.now ≡ c ∷ others.now)) }
{
    match rest {
        [_, others @ ..] => Some(others),
        [] => None,
    }
}

// The number that the first item writes, if it writes one, and the items behind it, if there are any.
fn first_number<T: Number>(items: &[u8]) -> (Option<T>, Option<&[u8]>)
    ensures number { result.0 ≡ number_in T.Number.kind (trimmed (front in_item items.now)) }
    ensures others { MatchOption result.1 (cut semicolon items.now ≡ front in_item items.now ∷ []) (λ others. (cut semicolon items.now ≡ front in_item items.now ∷ cut semicolon others.now) × (length others.now < length items.now)) }
{
    if let Some((number, rest)) = plain_number::<T, b';'>(items) {
        return (Some(number), others(rest));
    }
    let (item, rest) = first_text::<b';'>(items);
    (number_in(item), others(rest))
}

// Puts the numbers of the list that the field's text writes behind those of `into`.
fn read_list<T: Number>(field: u32, text: &[u8], into: &mut Vec<T>) -> Result<(), Fault>
    ensures value { ListRead (list_in T.Number.kind text.now) field (vec_capacity into.old) into.old.items into.new.items (vec_len into.new) result }
    ensures stopped { Stopped (front_in T.Number.kind (Some text.now)) into.old.items into.new.items result }
{
    if text.is_empty() {
        return Ok(());
    }
    // Kept: a `for` over `split` gets no proof in a function with a type parameter.
    let mut left = Some(text);
    while let Some(items) = left {
        let (number, others) = first_number(items);
        into.push(number.ok_or(Fault::Malformed(field))?)?;
        left = others;
    }
    Ok(())
}

impl<'t> Fields<'t> {
    // The next field as a list of numbers, put behind those of `into`. Where it is no list, the field stays, and
    // `into` holds what was read before the fault.
    pub fn list<T: Number>(&mut self, field: u32, into: &mut Vec<T>) -> Result<(), Fault>
        ensures value { ListRead (and_then (next_text self.old.rest.now) (list_in T.Number.kind)) field (vec_capacity into.old) into.old.items into.new.items (vec_len into.new) result }
        ensures stopped { Stopped (front_in T.Number.kind (next_text self.old.rest.now)) into.old.items into.new.items result }
        ensures passes { Passes (is_ok result) self.old.rest.now self.new.rest.now }
    {
        let mut behind = *self;
        let text = behind.text().ok_or(Fault::Malformed(field))?;
        read_list(field, text, into)?;
        *self = behind;
        Ok(())
    }
}
