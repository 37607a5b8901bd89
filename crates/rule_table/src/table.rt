// Custom functions as a table of numbers and bytes.
ghost use Rattle.std.specs.Prelude.{◌≡◌, []};
ghost use Rattle.rule_table.specs.Table.{IsReadAs, number_told, numbers_told, part_told, row_added, row_told, rule_told, word_told};

use crate::rules::Rules;
use cell_addr::{Text, is_word};
use custom_fn::{Rule, is_function_word};
use fix_num::Fixed;
use std::alloc::{AllocError, Global};

/// Why no custom functions could be read from a table.
#[derive(Clone, Copy, PartialEq, Eq, Debug)]
pub enum TableError {
    /// It isn't a table of custom functions.
    BadTable,
    /// There was no memory.
    NoMemory,
}

impl From<AllocError> for TableError {
    ghost use Rattle.rule_table.specs.declared.table.TableError.TheVariants.{NoMemory};

    ghost from_gives = { λ _ error. error ≡ NoMemory };

    fn from(_: AllocError) -> TableError {
        TableError::NoMemory
    }
}

/// A custom function of a table: where its word stands among the bytes and its pairs among the pairs, both counted from 0,
/// and whether the pairs are tiers.
#[repr(C)]
#[derive(Clone, Copy)]
pub struct RuleRow {
    /// Where the word begins.
    pub word_start: usize,
    /// How many bytes it has.
    pub word_length: usize,
    /// Where the pairs begin.
    pub pairs_start: usize,
    /// How many there are: 1 to 64.
    pub pairs_count: usize,
    /// Whether they are tiers; else they are bands.
    pub has_tiers: bool,
}

/// A pair of a rule in millionths: where a band or tier begins, and its value or rate.
#[repr(C)]
#[derive(Clone, Copy)]
pub struct RulePair {
    /// Where it begins.
    pub from: i64,
    /// Its value or rate.
    pub gives: i64,
}

/// A table of custom functions: a row for each, the pairs of all and the bytes of their words.
///
/// It is one where each row's word and pairs lie among the bytes and the pairs; the word is UTF-8, has the form of a
/// function's word, and is neither that of a function that every workbook has nor that of a row before, in any case of
/// its ASCII letters; and the pairs are bands or tiers as [`Rule`] has them, of numbers inside the limits.
pub struct RuleTable<'t> {
    /// The functions.
    pub rows: &'t [RuleRow],
    /// The pairs of all functions.
    pub pairs: &'t [RulePair],
    /// The bytes of all words.
    pub words: &'t [u8],
}

impl RuleTable<'_> {
    ghost use Rattle.rule_table.specs.Rules.{rules_of};
    ghost use Rattle.rule_table.specs.Table.{rules_told};

    /// The custom functions that the table tells. Costs about the bytes of its words and its pairs, and for each row a look
    /// at those before it.
    ///
    /// # Errors
    /// `BadTable` where the table isn't one of custom functions, `NoMemory`.
    pub fn rules(&self, alloc: Global) -> Result<Rules, TableError>
        ensures { IsReadAs (rules_told self.now) rules_of result }
    {
        let mut rules = Rules::new(alloc);
        let mut rest = self.rows;
        'rows: while let Some((row, after)) = rest.split_first() {
            self.add(alloc, *row, &mut rules)?;
            rest = after;
        }
        Ok(rules)
    }

    // Puts the function of a row after the others.
    fn add(&self, alloc: Global, row: RuleRow, rules: &mut Rules) -> Result<(), TableError>
        ensures { IsReadAs (row_added (rules_of rules.old) (row_told self.now.words.now self.now.pairs.now row)) (λ _. rules_of rules.new) result }
    {
        let word = word_of(alloc, self.words, row)?;
        let rule = rule_of(alloc, self.pairs, row)?;
        if is_function_word(word.as_str()) || rules.found(word.as_str()).is_some() {
            return Err(TableError::BadTable);
        }
        rules.push(word, rule)?;
        Ok(())
    }
}

// The word of a row, which has the form of a function's word.
#[tactic(auto, using(crate::proofs::Words::passes, crate::proofs::Words::fails))]
fn word_of(alloc: Global, words: &[u8], row: RuleRow) -> Result<Text, TableError>
    ensures { IsReadAs (word_told words.now row) (λ word. word) result }
{
    let bytes = part(words, row.word_start, row.word_length)?;
    if !is_word(bytes) {
        return Err(TableError::BadTable);
    }
    match str::from_utf8(bytes) {
        Ok(word) => Ok(Text::from_str(alloc, word)?),
        Err(_) => Err(TableError::BadTable),
    }
}

// The rule of a row.
fn rule_of(alloc: Global, pairs: &[RulePair], row: RuleRow) -> Result<Rule, TableError>
    ensures { IsReadAs (rule_told pairs.now row) (λ rule. rule) result }
{
    let numbers = numbers_of(alloc, part(pairs, row.pairs_start, row.pairs_count)?)?;
    let rule = if row.has_tiers {
        Rule::tiers(numbers)
    } else {
        Rule::bands(numbers)
    };
    rule.ok_or(TableError::BadTable)
}

// The numbers of pairs, which all are inside the limits.
fn numbers_of(alloc: Global, pairs: &[RulePair]) -> Result<Vec<(Fixed, Fixed)>, TableError>
    ensures { IsReadAs (numbers_told [] pairs.now) (λ numbers. numbers.items) result }
{
    let mut numbers = Vec::new(alloc);
    let mut rest = pairs;
    'pairs: while let Some((pair, after)) = rest.split_first() {
        let number = (number_of(pair.from)?, number_of(pair.gives)?);
        if numbers.push(number).is_err() {
            return Err(TableError::NoMemory);
        }
        rest = after;
    }
    Ok(numbers)
}

// The number of so many millionths, which is inside the limits.
fn number_of(millionths: i64) -> Result<Fixed, TableError>
    ensures { IsReadAs (number_told millionths) (λ number. number) result }
{
    match Fixed::from_millionths(millionths) {
        Ok(number) => Ok(number),
        Err(_) => Err(TableError::BadTable),
    }
}

// So many of the items from one of them on.
fn part<T>(items: &[T], start: usize, count: usize) -> Result<&[T], TableError>
    ensures { IsReadAs (part_told items.now start count) (λ part. part.now) result }
{
    if start <= items.len() && count <= items.len() - start {
        Ok(&items[start..start + count])
    } else {
        Err(TableError::BadTable)
    }
}
