//! Minor function codes (WDK: "Plug and Play Minor IRPs", "Power Management Minor IRPs").

ghost use Rattle.std.specs.Prelude.{◌≡◌, map};
ghost use Rattle.std.specs.Option.{option_map};
ghost use Rattle.irp_names.specs.Minors as spec;

/// A minor function code: its major, its number and its name.
type Minor = (u8, u8, &'static str);

/// IRP_MJ_PNP.
const PNP: u8 = 0x1b;
/// IRP_MJ_POWER.
const POWER: u8 = 0x16;

/// The minor function codes.
static MINORS: [Minor; 27] = [
    (PNP, 0x00, "IRP_MN_START_DEVICE"),
    (PNP, 0x01, "IRP_MN_QUERY_REMOVE_DEVICE"),
    (PNP, 0x02, "IRP_MN_REMOVE_DEVICE"),
    (PNP, 0x03, "IRP_MN_CANCEL_REMOVE_DEVICE"),
    (PNP, 0x04, "IRP_MN_STOP_DEVICE"),
    (PNP, 0x05, "IRP_MN_QUERY_STOP_DEVICE"),
    (PNP, 0x06, "IRP_MN_CANCEL_STOP_DEVICE"),
    (PNP, 0x07, "IRP_MN_QUERY_DEVICE_RELATIONS"),
    (PNP, 0x08, "IRP_MN_QUERY_INTERFACE"),
    (PNP, 0x09, "IRP_MN_QUERY_CAPABILITIES"),
    (PNP, 0x0a, "IRP_MN_QUERY_RESOURCES"),
    (PNP, 0x0b, "IRP_MN_QUERY_RESOURCE_REQUIREMENTS"),
    (PNP, 0x0c, "IRP_MN_QUERY_DEVICE_TEXT"),
    (PNP, 0x0d, "IRP_MN_FILTER_RESOURCE_REQUIREMENTS"),
    (PNP, 0x0f, "IRP_MN_READ_CONFIG"),
    (PNP, 0x10, "IRP_MN_WRITE_CONFIG"),
    (PNP, 0x11, "IRP_MN_EJECT"),
    (PNP, 0x12, "IRP_MN_SET_LOCK"),
    (PNP, 0x13, "IRP_MN_QUERY_ID"),
    (PNP, 0x14, "IRP_MN_QUERY_PNP_DEVICE_STATE"),
    (PNP, 0x15, "IRP_MN_QUERY_BUS_INFORMATION"),
    (PNP, 0x16, "IRP_MN_DEVICE_USAGE_NOTIFICATION"),
    (PNP, 0x17, "IRP_MN_SURPRISE_REMOVAL"),
    (POWER, 0x00, "IRP_MN_WAIT_WAKE"),
    (POWER, 0x01, "IRP_MN_POWER_SEQUENCE"),
    (POWER, 0x02, "IRP_MN_SET_POWER"),
    (POWER, 0x03, "IRP_MN_QUERY_POWER"),
];

/// Every row. No other function names the table, since a check reads it whole at each that does.
#[tactic(auto, unfolding(crate::specs::Minors::minor_rows))]
fn minor_rows() -> &'static [Minor]
    ensures { map (λ row. (row.0, row.1, row.2.now)) result.now ≡ spec.minor_rows }
{
    &MINORS
}

/// The name at a place of these rows. None behind the last.
fn name_at(rows: &'static [Minor], place: usize) -> Option<&'static str>
    ensures { option_map (λ name. name.now) result
        ≡ spec.name_at place (map (λ row. (row.0, row.1, row.2.now)) rows.now) }
{
    Some(rows.get(place)?.2)
}

/// The number of the first of these rows that has this name. None where none has it.
fn number_of(rows: &[Minor], name: &str) -> Option<u64>
    ensures { result ≡ spec.number_of name.now (map (λ row. (row.0, row.1, row.2.now)) rows.now) }
{
    for minor in rows {
        if minor.2 == name {
            return Some(u64::from(minor.1));
        }
    }
    None
}

/// The name of the first of these rows that has this major and this number. None where there is none.
fn name_of(rows: &'static [Minor], major: u8, number: u64) -> Option<&'static str>
    ensures { option_map (λ name. name.now) result
        ≡ spec.name_of major number (map (λ row. (row.0, row.1, row.2.now)) rows.now) }
{
    for minor in rows {
        if minor.0 == major && u64::from(minor.1) == number {
            return Some(minor.2);
        }
    }
    None
}

/// The name of the minor function code at a place of the table, from 0. None behind the last.
pub fn minor_at(place: usize) -> Option<&'static str>
    ensures { option_map (λ name. name.now) result ≡ spec.name_at place spec.minor_rows }
{
    name_at(minor_rows(), place)
}

/// The minor function code that has this name. None where none has it.
pub fn minor_named(name: &str) -> Option<u64>
    ensures { result ≡ spec.number_of name.now spec.minor_rows }
{
    number_of(minor_rows(), name)
}

/// The name of a minor function code of this major. None where there is none.
pub fn minor_name(major: u8, word: u64) -> Option<&'static str>
    ensures { option_map (λ name. name.now) result ≡ spec.name_of major word spec.minor_rows }
{
    name_of(minor_rows(), major, word)
}
