// The fields of a message: a vector of fixed capacity as the kit's `ArrayVec` is, and a value that is copied like a field.
ghost use Rattle.std.specs.Prelude.{◌≡◌, ◌==◌, ◌+◌, ◌<◌, ◌≤◌, List, [], ◌∷◌, ◌++◌, length};
ghost use Rattle.std.specs.Cmp.{partial_equiv_from_equiv};
ghost use Rattle.arrayvec.specs.ArrayVec.{array_vec_len};
ghost use Rattle.refusal.specs.Limits.{most_fields};
ghost use Rattle.dictionary.specs.inner.Equal.{equal, equal_laws};

use super::Field;
use refusal::MOST_FIELDS;
use std::fmt;
use std::marker::Model;
use std::ops::DerefSlice;

// The first `count` of the list; those behind are blank.
#[derive(Clone, Copy)]
pub struct Fields {
    list: [Field; MOST_FIELDS],
    count: usize,
}

impl Model for Fields {
    ghost use Rattle.std.specs.Prelude.{◌≡◌, ◌≤◌, ◌-◌, ◌++◌, length, take, drop, replicate};
    ghost use Rattle.std.proofs.Common.{arith, ap, sym, ◌∙◌, take-append-drop, length-take-le};
    ghost use Rattle.std.proofs.lemmas.List.{drop-replicate};
    ghost use Rattle.arrayvec.specs.ArrayVec.{ArrayVec as Items};
    ghost use Rattle.refusal.specs.Limits.{most_fields};
    ghost use Rattle.refusal.specs.Over.{over};
    ghost use Rattle.dictionary.specs.declared.Field.{Field as Item};
    ghost use Rattle.dictionary.specs.inner.Lookup.{no_field};

    ghost Value = { Items Item };

    ghost view = { λ f. record { items = take f.count f.list } };

    ghost invariant = { λ f.
        (f.count ≤ most_fields) × (length f.list ≡ most_fields) × (drop f.count f.list ≡ replicate (most_fields - f.count) no_field) };

    ghost inverse = { λ v. record { list = over v.items (replicate most_fields no_field); count = length v.items } };

    ghost inverse_ok = { λ f h i.
        let long = length-take-le f.count f.list (omega (arith, h.0, h.1)) in
        record {
          list = (ap (λ n. take f.count f.list ++ drop n (replicate most_fields no_field)) long
              ∙ ap (λ l. take f.count f.list ++ l) (drop-replicate f.count most_fields no_field ∙ sym h.2) ∙ take-append-drop f.count f.list) i;
          count = long i;
        } };
}

impl Fields {
    // None yet.
    pub fn new() -> Fields
        ensures { result.items ≡ [] }
    {
        Fields {
            list: [Field::default(); MOST_FIELDS],
            count: 0,
        }
    }

    pub fn len(&self) -> usize
        ensures value { result ≡ array_vec_len self.now }
        ensures fits { result ≤ most_fields }
    {
        self.count
    }

    pub fn is_empty(&self) -> bool
        ensures { result ≡ (array_vec_len self.now == 0) }
    {
        self.count == 0
    }

    pub fn is_full(&self) -> bool
        ensures value { result ≡ (array_vec_len self.now == most_fields) }
        ensures fits { array_vec_len self.now ≤ most_fields }
    {
        self.count == MOST_FIELDS
    }

    // One more, for which there has to be room.
    pub fn push(&mut self, field: Field)
        requires { array_vec_len self.old < most_fields }
        ensures items { self.new.items ≡ self.old.items ++ field ∷ [] }
        ensures len { array_vec_len self.new ≡ array_vec_len self.old + 1 }
    {
        self.list[self.count] = field;
        self.count += 1;
    }

    pub fn as_slice(&self) -> &[Field]
        ensures value { result.now ≡ self.now.items }
        ensures fits { length result.now ≤ most_fields }
    {
        &self.list[..self.count]
    }
}

impl Default for Fields {
    ghost is_default = { λ v. v.items ≡ [] };

    fn default() -> Fields {
        Fields::new()
    }
}

impl DerefSlice for Fields {
    type Elem = Field;

    ghost deref_gives = { λ v xs. (xs ≡ v.items) × (length xs ≤ most_fields) };

    fn deref(&self) -> &[Field] {
        self.as_slice()
    }
}

impl PartialEq for Fields {
    ghost eq = { equal };

    ghost laws = { partial_equiv_from_equiv equal_laws };

    fn eq(&self, other: &Fields) -> bool {
        self.as_slice() == other.as_slice()
    }
}

impl Eq for Fields {
    ghost laws = { equal_laws };
}

impl fmt::Debug for Fields {
    fn fmt<W: fmt::Write>(&self, f: &mut fmt::Formatter<W>) -> fmt::Result {
        f.debug_list().entries(self.as_slice()).finish()
    }
}
