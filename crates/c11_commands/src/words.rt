//! The words of the command line.
ghost use Rattle.std.specs.Prelude.{◌≡◌, ◌≤◌, ◌∷◌, [], map, string_bytes, ◌<◌, ◌^◌, IfSome, MatchOption, SomeIff, IsTrue};
ghost use Rattle.std.specs.List.{list_any};
ghost use Rattle.std.specs.Str.{bytes_eq};
ghost use Rattle.std.specs.Str.Parse.{digits_value};
ghost use Rattle.c11_commands.specs.Statuses.{exit_number};
ghost use Rattle.c11_commands.specs.Words.{pairs_of, are_known, values_of, is_numeral, number_within, setting, help_of, run_of, campaign_of, trial_of, seeds_of, command_of, reading};

/// How the program ended.
#[derive(Clone, Copy, Debug, PartialEq, Eq)]
pub enum Status {
    /// All that was asked for is done.
    Done,
    /// A fault of the program under test was found.
    Found,
    /// A limit was reached first.
    Bound,
    /// The text is no program.
    Refused,
    /// The words of the command line ask for nothing.
    Usage,
    /// The text could not be read.
    ReadFault,
    /// An answer could not be written.
    WriteFault,
    /// There was no memory.
    NoMemory,
}

impl Status {
    /// The exit number, 0 to 7.
    pub fn number(self) -> u8
        ensures { result ≡ exit_number self }
    {
        self as u8
    }
}

/// What the words of a command line ask for.
#[derive(Clone, Copy, Debug, PartialEq, Eq)]
pub enum Command {
    /// How the program is called.
    Help,
    /// One run.
    Run {
        /// What its choices are drawn from.
        seed: u64,
        /// How many steps it may take, 1 to 10,000.
        steps: u32,
    },
    /// A run for each of many seeds, and one summary.
    Campaign {
        /// The first seed.
        first: u64,
        /// How many seeds, 1 to 1,000,000; the last seed is a `u64` too.
        count: u64,
        /// How many steps each run may take, 1 to 4,000.
        steps: u32,
        /// How many workers, 1 to 64.
        workers: u32,
    },
    /// A campaign over a program that is made from two numbers.
    Trial {
        /// What the program is made from.
        number: u64,
        /// How many packets it passes, 1 to 200.
        size: u32,
        /// The first seed.
        first: u64,
        /// How many seeds, 1 to 1,000,000; the last seed is a `u64` too.
        count: u64,
        /// How many steps each run may take, 1 to 4,000.
        steps: u32,
        /// How many workers, 1 to 64.
        workers: u32,
    },
}

/// The numbers that an option takes.
#[derive(Clone, Copy)]
pub struct Limits {
    /// The least number.
    pub least: u64,
    /// The greatest number.
    pub most: u64,
    /// The number of an option that is not given.
    pub default: u64,
}

const SEED: Limits = Limits {
    least: 0,
    most: u64::MAX,
    default: 0,
};

const STEPS: Limits = Limits {
    least: 1,
    most: 10_000,
    default: 2_000,
};

const COUNT: Limits = Limits {
    least: 1,
    most: 1_000_000,
    default: 100,
};

const CAMPAIGN_STEPS: Limits = Limits {
    least: 1,
    most: 4_000,
    default: 2_000,
};

const TRIAL_STEPS: Limits = Limits {
    least: 1,
    most: 4_000,
    default: 4_000,
};

const WORKERS: Limits = Limits {
    least: 1,
    most: 64,
    default: 4,
};

const NUMBER: Limits = Limits {
    least: 0,
    most: u64::MAX,
    default: 0,
};

const SIZE: Limits = Limits {
    least: 1,
    most: 200,
    default: 16,
};

/// The command that the words ask for, of which the first is not the program's own name. `None`
/// where they ask for none.
pub fn read_words(words: &[String]) -> Option<Command>
    ensures { result ≡ reading (map string_bytes words.now) }
{
    let [name, options @ ..] = words else {
        return None;
    };
    if options.len() % 2 != 0 {
        return None;
    }
    command_of(name.as_str(), options)
}

fn command_of(name: &str, options: &[String]) -> Option<Command>
    ensures { result ≡ command_of name.now (pairs_of (map string_bytes options.now)) }
{
    match name {
        "run" => run_of(options),
        "campaign" => campaign_of(options),
        "trial" => trial_of(options),
        "help" => help_of(options),
        _ => None,
    }
}

fn help_of(options: &[String]) -> Option<Command>
    ensures { result ≡ help_of (pairs_of (map string_bytes options.now)) }
{
    match options {
        [_, _, ..] => None,
        _ => Some(Command::Help),
    }
}

fn run_of(options: &[String]) -> Option<Command>
    ensures { result ≡ run_of (pairs_of (map string_bytes options.now)) }
{
    if !are_known(&["--seed", "--steps"], options) {
        return None;
    }
    let seed = setting(SEED, "--seed", options)?;
    let steps = setting(STEPS, "--steps", options)?;
    Some(Command::Run {
        seed,
        steps: steps as u32,
    })
}

fn campaign_of(options: &[String]) -> Option<Command>
    ensures { result ≡ campaign_of (pairs_of (map string_bytes options.now)) }
{
    if !are_known(&["--first", "--count", "--steps", "--workers"], options) {
        return None;
    }
    let seeds = seeds_of(options)?;
    let steps = setting(CAMPAIGN_STEPS, "--steps", options)?;
    let workers = setting(WORKERS, "--workers", options)?;
    Some(Command::Campaign {
        first: seeds.first,
        count: seeds.count,
        steps: steps as u32,
        workers: workers as u32,
    })
}

fn trial_of(options: &[String]) -> Option<Command>
    ensures { result ≡ trial_of (pairs_of (map string_bytes options.now)) }
{
    if !are_known(
        &[
            "--number",
            "--size",
            "--first",
            "--count",
            "--steps",
            "--workers",
        ],
        options,
    ) {
        return None;
    }
    let number = setting(NUMBER, "--number", options)?;
    let size = setting(SIZE, "--size", options)?;
    let seeds = seeds_of(options)?;
    let steps = setting(TRIAL_STEPS, "--steps", options)?;
    let workers = setting(WORKERS, "--workers", options)?;
    Some(Command::Trial {
        number,
        size: size as u32,
        first: seeds.first,
        count: seeds.count,
        steps: steps as u32,
        workers: workers as u32,
    })
}

/// The seeds from the first on.
#[derive(Clone, Copy)]
struct Seeds {
    first: u64,
    count: u64,
}

/// The seeds of a campaign, of which the last is a seed too.
fn seeds_of(options: &[String]) -> Option<Seeds>
    ensures { result ≡ seeds_of (pairs_of (map string_bytes options.now)) }
{
    let first = setting(SEED, "--first", options)?;
    let count = setting(COUNT, "--count", options)?;
    if first.checked_add(count.saturating_sub(1)).is_none() {
        return None;
    }
    Some(Seeds { first, count })
}

/// Whether each option has one of these names.
fn are_known<'a>(names: &[&'a str], options: &'a [String]) -> bool
    ensures { result
        ≡ are_known (map (λ name. name.now) names.now) (pairs_of (map string_bytes options.now)) }
{
    let mut left = options;
    while let [name, _, rest @ ..] = left {
        if !is_known(names, name.as_str()) {
            return false;
        }
        left = rest;
    }
    true
}

/// Whether a name is one of these.
fn is_known<'a>(names: &[&'a str], name: &'a str) -> bool
    ensures { result
        ≡ list_any (λ known. bytes_eq known name.now) (map (λ known. known.now) names.now) }
{
    names.contains(&name)
}

/// The number that the options give under a name.
fn setting(limits: Limits, name: &str, options: &[String]) -> Option<u64>
    ensures value { result
        ≡ setting limits (values_of name.now (pairs_of (map string_bytes options.now))) }
    ensures bound { limits.default ≤ limits.most → IfSome result (λ number. number ≤ limits.most) }
{
    let Some((value, rest)) = first_value(name, options) else {
        return Some(limits.default);
    };
    if first_value(name, rest).is_some() {
        return None;
    }
    number_within(limits, value)
}

/// The first value that the options give under a name, and the options after it.
fn first_value<'a>(name: &str, options: &'a [String]) -> Option<(&'a str, &'a [String])>
    ensures { MatchOption result
        (values_of name.now (pairs_of (map string_bytes options.now)) ≡ [])
        (λ found. values_of name.now (pairs_of (map string_bytes options.now))
        ≡ found.0.now ∷ values_of name.now (pairs_of (map string_bytes found.1.now))) }
{
    let mut left = options;
    while let [option, value, rest @ ..] = left {
        if option.as_str() == name {
            return Some((value.as_str(), rest));
        }
        left = rest;
    }
    None
}

/// The number that a value writes, where it is within the limits.
fn number_within(limits: Limits, value: &str) -> Option<u64>
    ensures value { result ≡ number_within limits value.now }
    ensures bound { IfSome result (λ number. number ≤ limits.most) }
{
    let number = number_of(value)?;
    if limits.least <= number && number <= limits.most {
        Some(number)
    } else {
        None
    }
}

/// The number of 1 to 20 digits.
fn number_of(value: &str) -> Option<u64>
    ensures { SomeIff result (IsTrue (is_numeral value.now) × (digits_value 10 value.now < 2 ^ 64))
        (digits_value 10 value.now) }
{
    if value.len() > 20 || value.starts_with('+') {
        return None;
    }
    value.parse().ok()
}
