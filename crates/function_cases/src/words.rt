// The words of the functions that every workbook has.
use calc_terms::Function;
use case_files::Tally;
use custom_fn::FUNCTION_WORDS;
use std::io;

/// Counts each word that names no function, and prints it.
pub(crate) fn run_words(rt: &HostRuntime) -> io::Result<Tally> {
    let mut tally = Tally::default();
    'words: for &word in &FUNCTION_WORDS {
        let known = Function::named(word).is_some();
        tally.count(known);
        if !known {
            println!(rt; "    NO FUNCTION: word {}", tally.cases)?;
        }
    }
    Ok(tally)
}
