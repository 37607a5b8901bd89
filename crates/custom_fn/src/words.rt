// The words that name functions.
ghost use Rattle.std.specs.Prelude.{◌≡◌};
ghost use Rattle.std.specs.List.{list_any};
ghost use Rattle.cell_addr.specs.Sheets.{same_name};
ghost use Rattle.custom_fn.specs.Word.{is_function_word};

use cell_addr::same_folded;

/// The functions that every workbook has.
pub const FUNCTION_WORDS: [&str; 68] = [
    "SUM",
    "AVERAGE",
    "MIN",
    "MAX",
    "COUNT",
    "COUNTA",
    "COUNTBLANK",
    "PRODUCT",
    "SUMIF",
    "COUNTIF",
    "ABS",
    "SIGN",
    "INT",
    "TRUNC",
    "ROUND",
    "ROUNDUP",
    "ROUNDDOWN",
    "MOD",
    "QUOTIENT",
    "POWER",
    "ISEVEN",
    "ISODD",
    "IF",
    "AND",
    "OR",
    "XOR",
    "NOT",
    "TRUE",
    "FALSE",
    "NA",
    "IFERROR",
    "IFNA",
    "ISERROR",
    "ISERR",
    "ISNA",
    "ISNUMBER",
    "ISTEXT",
    "ISLOGICAL",
    "ISBLANK",
    "ROW",
    "COLUMN",
    "ROWS",
    "COLUMNS",
    "LEN",
    "LEFT",
    "RIGHT",
    "MID",
    "CONCATENATE",
    "TRIM",
    "REPT",
    "EXACT",
    "FIND",
    "SUBSTITUTE",
    "VALUE",
    "MATCH",
    "VLOOKUP",
    "HLOOKUP",
    "INDEX",
    "CHOOSE",
    "DATE",
    "YEAR",
    "MONTH",
    "DAY",
    "WEEKDAY",
    "DAYS",
    "EDATE",
    "EOMONTH",
    "TODAY",
];

/// Whether every workbook has a function of this name, in any case of its letters.
pub fn is_function_word(name: &str) -> bool
    ensures { result ≡ is_function_word name.now }
{
    is_one_of(name, &FUNCTION_WORDS)
}

// Whether the name is one of the words, in any case of its letters.
fn is_one_of(name: &str, words: &[&str]) -> bool
    ensures { result ≡ list_any (λ word. same_name word.now name.now) words.now }
{
    words.iter().any(|word| same_folded(word, name))
}
