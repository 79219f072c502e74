//! The fields of a case.

/// Whether a line of a file of cases is a case: it isn't empty, and begins with no `#`.
pub fn is_case(line: &str) -> bool {
    !line.is_empty() && !line.starts_with('#')
}

/// The field of this number, from 0, without the blanks around it; empty where the line has fewer.
pub fn field(line: &str, number: usize) -> &str {
    match line.split('|').nth(number) {
        Some(field) => field.trim(),
        None => "",
    }
}

/// The number that a field is, and 0 where it is none.
pub fn number(field: &str) -> u32 {
    field.parse::<u32>().unwrap_or(0)
}
