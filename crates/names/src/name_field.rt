// The name field of a line of BAHNHOF: columns 13 to 62 without trailing blanks, and whether it is a name list (39).
ghost use Rattle.std.specs.Prelude.{◌≡◌};
ghost use Rattle.columns.specs.LineFields.{field_in, stop_names};
ghost use Rattle.names.specs.Names.{is_name_list};
ghost use Rattle.names.specs.NameField.{name_length, name_field};

use columns::line_fields::stop;

// Whether the name field is a name list.
pub fn is_named(text: &[u8]) -> bool
    ensures { result ≡ is_name_list (name_field text.now) }
{
    let name = columns::part(text, stop::NAMES, stop::NAMES_END);
    let size = name_length(text) as usize;
    crate::is_name_list(&name[0..size])
}

// The length of the name field without trailing blanks.
#[tactic(auto, using(crate::proofs::name_field::Names::names))]
pub fn name_length(text: &[u8]) -> u32
    ensures { result ≡ name_length (field_in stop_names text.now) }
{
    let name = columns::part(text, stop::NAMES, stop::NAMES_END);
    let mut k = name.len();
    while 0 < k {
        if name[k - 1] != b' ' {
            return k as u32;
        }
        k -= 1;
    }
    0
}
