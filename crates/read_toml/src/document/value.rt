//! What may be wrong with a value by itself, whatever its key.
ghost use Rattle.std.specs.Prelude.{◌≡◌, ℕ, ◌≤◌, ◌&&◌, nat_le, List, ◌∷◌, [], map, pos, IfOk};
ghost use Rattle.std.specs.Prelude.{IfErr, string_bytes};
ghost use Rattle.base_words.specs.Location.{is_location};
ghost use Rattle.read_toml.specs.Document as document;
ghost use Rattle.read_toml.specs.Refused.{IsFirst};
ghost use Rattle.read_toml.specs.Value.{fault_of, StandsFor};
ghost use Rattle.toml.specs.Data.{integer};
ghost use Rattle.toml.specs.View.{view};

use base_notes::{KeyPath, NoteFault};
use base_words::Location;
use toml::Value;

/// What is wrong with a value.
#[derive(Clone, Copy)]
pub enum ValueFault {
    /// It is of another kind.
    Kind,
    /// It is outside its range.
    Range,
}

/// The whole number from `low` to `high` that a value is; else Kind or Range.
pub fn whole_number(value: &Value, low: u64, high: u64) -> Result<u64, ValueFault>
    ensures found { IfOk result (λ n. view value.now ≡ integer (pos n)) }
    ensures low { IfOk result (λ n. low ≤ n) }
    ensures high { IfOk result (λ n. n ≤ high) }
    ensures wrong { IfErr result (λ wrong. (path : List ℕ)
        → document.number_faults path (λ n. nat_le low n && nat_le n high) (view value.now)
        ≡ fault_of wrong path ∷ []) }
{
    let Some(number) = value.as_integer() else {
        return Err(ValueFault::Kind);
    };
    match u64::try_from(number) {
        Ok(number) if low <= number && number <= high => Ok(number),
        _ => Err(ValueFault::Range),
    }
}

/// The whole number that a value is; 0 where it is no whole number, or a negative one.
pub fn number(value: &Value) -> u64
    ensures { result ≡ document.number_in (view value.now) }
{
    let Some(number) = value.as_integer() else {
        return 0;
    };
    u64::try_from(number).unwrap_or(0)
}

/// The location whose number a value is; Kind where it is no number, Range where it is no location.
pub fn location(value: &Value) -> Result<Location, ValueFault>
    ensures found { IfOk result (λ location. view value.now ≡ integer (pos location.number)) }
    ensures wrong { IfErr result (λ wrong. (path : List ℕ)
        → document.number_faults path is_location (view value.now) ≡ fault_of wrong path ∷ []) }
{
    let number = whole_number(value, 0, 9999)?;
    Location::new(number as u16).ok_or(ValueFault::Range)
}

/// What the text that a value is stands for, of the given choices; Kind where it is no text, Range
/// where it is none of these.
pub fn choice<T: Copy + Drop>(value: &Value, choices: &[(&str, T)]) -> Result<T, ValueFault>
    ensures found { IfOk result (StandsFor (map (λ choice. (choice.0.now, choice.1)) choices.now)
        (view value.now)) }
    ensures wrong { IfErr result (λ wrong. (path : List ℕ)
        → document.text_faults path (map (λ choice. choice.0.now) choices.now) (view value.now)
        ≡ fault_of wrong path ∷ []) }
{
    let Some(text) = value.as_str() else {
        return Err(ValueFault::Kind);
    };
    for (name, chosen) in choices {
        if *name == text {
            return Ok(*chosen);
        }
    }
    Err(ValueFault::Range)
}
