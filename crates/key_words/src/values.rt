//! The rules of the values.

ghost use Rattle.std.specs.Prelude.{◌≡◌, ◌≤◌, Some, map, option_map, IfSome};
ghost use Rattle.std.specs.List.{list_all};
ghost use Rattle.ghost_model.specs.refusals.Tokens.{is_digit};
ghost use Rattle.key_words.specs.Blocks.{IsFew, AreBuffers, least_slices, most_slices, most_seed, most_rows, most_texts};
ghost use Rattle.key_words.specs.Words as words;

use crate::plans::plan_named;
use crate::words::{MAX_ITEMS, MAX_NUMBERS};
use arrayvec::ArrayVec;
use leakless_plan::Plan;

/// The most digits of a number.
const MAX_DIGITS: usize = 9;

/// The fewest slices that a number of the pace says.
const MIN_SLICES: u32 = 0;

/// The most slices that a number of the pace says.
const MAX_SLICES: u32 = 1000;

/// The one number of the pace where nothing is said of it.
const DEFAULT_SLICES: u16 = 1;

/// The most blocks of a flash.
const MAX_BLOCKS: u32 = 60_000_000;

/// The fewest page buffers of a key.
const MIN_BUFFERS: u32 = 8;

/// The most page buffers of a key.
const MAX_BUFFERS: u32 = 64;

/// The page buffers of a key where nothing is said of them.
const DEFAULT_BUFFERS: u32 = 32;

/// The largest seed of a generated clinic.
const MAX_SEED: u32 = 999_999_999;

/// The most visits of a generated clinic.
const MAX_ROWS: u32 = 1_000_000;

/// The most texts of a generated script, and how many they are where nothing is said of them.
const MAX_TEXTS: u32 = 40;

/// The plan that its option says: `auto` where it is left out, and `None` where its value names no plan.
pub fn read_plan(given: Option<&str>) -> Option<Plan>
    ensures value { result ≡ words.plan_said (option_map (λ text. text.now) given.entry) }
{
    match given {
        None => Some(Plan::Linked(None)),
        Some(name) => plan_named(name),
    }
}

/// Whether there are digits alone.
fn are_digits(text: &str) -> bool
    ensures value { result ≡ list_all is_digit text.now }
{
    text.as_bytes()
        .iter()
        .all(|&byte| b'0' <= byte && byte <= b'9')
}

/// The number that a value says: one to nine decimal digits, from one number to another one.
pub fn number_between(text: &str, least: u32, most: u32) -> Option<u32>
    ensures value { result ≡ words.number_said least most text.now }
    ensures least { IfSome result (λ number. least ≤ number) }
    ensures most { IfSome result (λ number. number ≤ most) }
{
    if text.is_empty() || text.len() > MAX_DIGITS || !are_digits(text) {
        return None;
    }
    match text.parse::<u32>() {
        Ok(number) => {
            if number < least || number > most {
                return None;
            }
            Some(number)
        }
        Err(_) => None,
    }
}

/// The number of slices that a value says: 0 to 1000.
fn read_slices(text: &str) -> Option<u16>
    ensures value { result ≡ words.number_said least_slices most_slices text.now }
{
    match number_between(text, MIN_SLICES, MAX_SLICES) {
        Some(slices) => Some(slices as u16),
        None => None,
    }
}

/// The numbers of slices between whose values stand commas: 1 to 16 of them.
fn read_numbers(text: &str) -> Option<ArrayVec<u16, MAX_NUMBERS>>
    ensures value { option_map (λ pace. pace.items) result ≡ words.pace_said (Some text.now) }
{
    let mut pace = ArrayVec::new();
    for piece in text.split(',') {
        let slices = read_slices(piece)?;
        if pace.try_push(slices).is_err() {
            return None;
        }
    }
    Some(pace)
}

/// The pace that its option says: 1 where it is left out, and `None` where its value breaks the rule.
pub fn read_pace(given: Option<&str>) -> Option<ArrayVec<u16, MAX_NUMBERS>>
    ensures value { option_map (λ pace. pace.items) result ≡ words.pace_said (option_map (λ text. text.now) given.entry) }
{
    let Some(text) = given else {
        let mut pace = ArrayVec::new();
        pace.push(DEFAULT_SLICES);
        return Some(pace);
    };
    read_numbers(text)
}

/// The number of page buffers that its option says: 32 where it is left out, and `None` where its value breaks the rule.
pub fn read_buffers(given: Option<&str>) -> Option<u32>
    ensures value { result ≡ words.buffers_said (option_map (λ text. text.now) given.entry) }
    ensures some { IfSome result AreBuffers }
{
    match given {
        None => Some(DEFAULT_BUFFERS),
        Some(text) => number_between(text, MIN_BUFFERS, MAX_BUFFERS),
    }
}

/// The seed that its option says, `None` where it is left out or its value breaks the rule.
pub fn read_seed(given: Option<&str>) -> Option<u32>
    ensures value { result ≡ words.seed_said (option_map (λ text. text.now) given.entry) }
    ensures short { IfSome result (λ seed. seed ≤ most_seed) }
{
    number_between(given?, 0, MAX_SEED)
}

/// The number of visits that its option says, `None` where it is left out or its value breaks the rule.
pub fn read_rows(given: Option<&str>) -> Option<u32>
    ensures value { result ≡ words.rows_said (option_map (λ text. text.now) given.entry) }
    ensures some { IfSome result (λ rows. 1 ≤ rows) }
    ensures few { IfSome result (λ rows. rows ≤ most_rows) }
{
    number_between(given?, 1, MAX_ROWS)
}

/// The number of texts that its option says: 40 where it is left out, and `None` where its value breaks the rule.
pub fn read_texts(given: Option<&str>) -> Option<u32>
    ensures value { result ≡ words.texts_said (option_map (λ text. text.now) given.entry) }
    ensures some { IfSome result (λ texts. 1 ≤ texts) }
    ensures few { IfSome result (λ texts. texts ≤ most_texts) }
{
    match given {
        None => Some(MAX_TEXTS),
        Some(text) => number_between(text, 1, MAX_TEXTS),
    }
}

/// What the option of the number of blocks says: nothing where it is left out, and `None` where its value breaks the rule.
pub fn read_blocks(given: Option<&str>) -> Option<Option<u32>>
    ensures value { result ≡ words.blocks_said (option_map (λ text. text.now) given.entry) }
    ensures few { IfSome result (λ blocks. IsFew blocks) }
{
    let Some(text) = given else {
        return Some(None);
    };
    match number_between(text, 1, MAX_BLOCKS) {
        Some(blocks) => Some(Some(blocks)),
        None => None,
    }
}

/// The items between whose texts stand commas: 1 to 32 of them.
fn read_item_list<'a>(text: &'a str) -> Option<ArrayVec<&'a str, MAX_ITEMS>>
    ensures value { option_map (λ items. map (λ item. item.now) items.items) result ≡ words.items_said (Some text.now) }
{
    let mut items = ArrayVec::new();
    for item in text.split(',') {
        if items.try_push(item).is_err() {
            return None;
        }
    }
    Some(items)
}

/// The items that the option `--null` says: none where it is left out, and `None` where there are more than 32.
pub fn read_items<'a>(given: Option<&'a str>) -> Option<ArrayVec<&'a str, MAX_ITEMS>>
    ensures value { option_map (λ items. map (λ item. item.now) items.items) result ≡ words.items_said (option_map (λ text. text.now) given.entry) }
{
    match given {
        None => Some(ArrayVec::new()),
        Some(text) => read_item_list(text),
    }
}
