//! Which format an office text has.

ghost use Rattle.std.specs.Prelude.{◌≡◌};
ghost use Rattle.clr_readings.specs.Readings.{Gives};
ghost use Rattle.clr_rule_text.specs.Fields.{text_lacks_memory};
ghost use Rattle.clr_office_reading.specs.Offices.{format_of};

pub use clr_rule_text::Format;
use clr_rule_text::TextFault;
use clr_rule_text::fields::number_in;
use clr_rule_text::json_values::JsonValue;

/// Returns the format of an office text. Fails with `BadField` where it is none of 1 to 4.
#[tactic(auto, unfolding(crate::specs::Offices::format_of))]
pub fn read_format<J: JsonValue>(json: &J) -> Result<Format, TextFault>
    ensures { Gives text_lacks_memory (λ f. f) result (format_of (J.stands_for json.now)) }
{
    match number_in(json, "format")? {
        1 => Ok(Format::First),
        2 => Ok(Format::Second),
        3 => Ok(Format::Third),
        4 => Ok(Format::Fourth),
        _ => Err(TextFault::BadField),
    }
}
