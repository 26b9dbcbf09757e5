//! Tables of names by numbers.

ghost use Rattle.std.specs.Prelude.{◌≡◌, Some, map};
ghost use Rattle.std.specs.Option.{option_map};
ghost use Rattle.irp_names.specs.Rows.{named, numbered};

/// A number, and its name.
pub type Row = (u32, &'static str);

/// The name in the first of these rows that has this number.
pub(crate) fn name_among(rows: &'static [Row], number: u32) -> Option<&'static str>
    ensures { option_map (λ name. name.now) result ≡ named (map (λ row. (row.0, row.1.now)) rows.now) number }
{
    for row in rows {
        if number == row.0 {
            return Some(row.1);
        }
    }
    None
}

/// The number in the first of these rows that has this name.
pub(crate) fn number_among(rows: &[Row], name: &str) -> Option<u32>
    ensures { result ≡ numbered (map (λ row. (row.0, row.1.now)) rows.now) name.now }
{
    for row in rows {
        if name == row.1 {
            return Some(row.0);
        }
    }
    None
}
