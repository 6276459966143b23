// The command that the words of a command line give.
ghost use Rattle.std.specs.Prelude.{◌≡◌, ◌+◌, ◌<◌, length, IfSome, string_bytes};
ghost use Rattle.std.specs.Char.{is_ascii_digit};
ghost use Rattle.std.specs.List.{list_any, list_all};
ghost use Rattle.workload_gen.specs.Workloads.{IsSize};
ghost use Rattle.stars_core.specs.CommandLine.{begins_dash, named, words_of, asking, seed_of, size_of, generating, HasSize, listed, command_of, bytes_of, word_at};

/// A command of the program.
#[derive(Clone, Copy, Debug, PartialEq, Eq)]
pub enum Command {
    /// `check RULES` puts the rule file in canonical layout.
    Check,
    /// `plan RULES CATALOGUE QUERY` puts the cheapest plan with its derivation and cost.
    Plan,
    /// `run RULES CATALOGUE QUERY` puts the same, and then the query's rows, from its tables.
    Run,
    /// `frontier RULES CATALOGUE QUERY` puts a line for each vector of the query's goal to which no
    /// other is better.
    Frontier,
    /// `verify RULES CATALOGUE QUERY DERIVATION` puts the numbers of the derivation's plan, where
    /// it is one of the query by the rules.
    Verify,
    /// `gen SEED SIZE` puts what planning and running the query of a generated workload comes to.
    /// It asks for no file.
    Gen {
        /// What the workload's numbers are drawn from.
        seed: u64,
        /// How many tables the workload has: 1 to 8.
        size: u8,
    },
}

impl Command {
    /// How many words stand behind its name.
    pub fn words(self) -> usize
        ensures { result ≡ words_of self }
    {
        match self {
            Command::Check => 1,
            Command::Gen { .. } => 2,
            Command::Plan | Command::Run | Command::Frontier => 3,
            Command::Verify => 4,
        }
    }
}

fn begins_dash(word: &str) -> bool
    ensures { result ≡ begins_dash word.now }
{
    matches!(word.as_bytes(), [b'-', ..])
}

// The command of this name, of those that ask for files.
fn named(word: &str) -> Option<Command>
    ensures value { result ≡ named word.now }
    ensures sized { IfSome result HasSize }
{
    if word == "check" {
        Some(Command::Check)
    } else if word == "plan" {
        Some(Command::Plan)
    } else if word == "run" {
        Some(Command::Run)
    } else if word == "frontier" {
        Some(Command::Frontier)
    } else if word == "verify" {
        Some(Command::Verify)
    } else {
        None
    }
}

// The command of a name, where so many words stand behind it.
fn asking(command: Option<Command>, words: usize) -> Option<Command>
    requires { IfSome command HasSize }
    ensures value { result ≡ asking command words }
    ensures words { IfSome result (λ command. words ≡ words_of command) }
    ensures sized { IfSome result HasSize }
{
    match command {
        Some(command) if words == command.words() => Some(command),
        _ => None,
    }
}

fn is_number(word: &str) -> bool
    ensures { result ≡ list_all is_ascii_digit word.now }
{
    word.as_bytes().iter().all(|byte| byte.is_ascii_digit())
}

#[tactic(auto, using(crate::proofs::Words::seed_parsed))]
fn seed_of(word: &str) -> Option<u64>
    ensures { result ≡ seed_of word.now }
{
    if word.len() <= 20 && is_number(word) {
        word.parse().ok()
    } else {
        None
    }
}

fn size_of(word: &str) -> Option<u8>
    ensures value { result ≡ size_of word.now }
    ensures sized { IfSome result IsSize }
{
    match word.as_bytes() {
        [digit @ b'1'..=b'8'] => Some(*digit - b'0'),
        _ => None,
    }
}

fn generating(words: &[String]) -> Option<Command>
    ensures value { result ≡ generating (bytes_of words.now) }
    ensures words { IfSome result (λ command. length words.now ≡ words_of command) }
    ensures sized { IfSome result HasSize }
{
    let [seed, size] = words else {
        return None;
    };
    let seed = seed_of(seed.as_str())?;
    let size = size_of(size.as_str())?;
    Some(Command::Gen { seed, size })
}

fn listed(words: &[String]) -> Option<Command>
    ensures value { result ≡ listed (bytes_of words.now) }
    ensures words { IfSome result (λ command. length words.now ≡ words_of command + 1) }
    ensures sized { IfSome result HasSize }
{
    match words {
        [] => None,
        [word, words @ ..] if word.as_str() == "gen" => generating(words),
        [word, words @ ..] => asking(named(word.as_str()), words.len()),
    }
}

fn any_dash(words: &[String]) -> bool
    ensures { result ≡ list_any (λ word. begins_dash (string_bytes word)) words.now }
{
    words.iter().any(|word| begins_dash(word.as_str()))
}

/// The command that the words give, where they are a listed form. There are no options: a word that
/// begins with a dash makes the words no listed form.
#[tactic(auto, using(crate::proofs::Words::list_any_map))]
pub fn find_command(words: &[String]) -> Option<Command>
    ensures value { result ≡ command_of (bytes_of words.now) }
    ensures words { IfSome result (λ command. length words.now ≡ words_of command + 1) }
    ensures sized { IfSome result HasSize }
{
    if any_dash(words) { None } else { listed(words) }
}

// The word at this place.
pub fn word_at(words: &[String], place: usize) -> &str
    requires { place < length words.now }
    ensures { result.now ≡ word_at (bytes_of words.now) place }
{
    words[place].as_str()
}
