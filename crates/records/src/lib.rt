// The fields of a message in a list that the caller lends: stored into it, and taken out of it.

#![tactic(auto)]

ghost use Rattle.std.specs.Prelude.{◌≡◌, ◌≤◌, ◌↔◌, length, IsSome, IfSome};
ghost use Rattle.refusal.specs.Limits.{most_fields};
ghost use Rattle.refusal.specs.Over.{over};

use dictionary::{Field, Fields};
use refusal::MOST_FIELDS;

// Stores the fields at the front of the list; what is behind them stays as it was.
pub fn put_all(list: &mut [Field], fields: &[Field])
    requires { length fields.now ≤ length list.old }
    ensures { list.new ≡ over fields.now list.old }
{
    list[..fields.len()].copy_from_slice(fields);
}

// A lent list by value, if it is no longer than a message's may be.
pub fn take_fields(list: &[Field]) -> Option<Fields>
    ensures short { IsSome result ↔ (length list.now ≤ most_fields) }
    ensures taken { IfSome result (λ fields. fields.items ≡ list.now) }
{
    if MOST_FIELDS < list.len() {
        return None;
    }
    let mut fields = Fields::new();
    for &field in list {
        fields.push(field);
    }
    Some(fields)
}
