// The options of a run.
ghost use Rattle.std.specs.Prelude.{◌≡◌, ◌≤◌, ◌*◌, IfOk, IfSome, Some};
ghost use Rattle.vale_base.specs.Faults.{IfFault, IsValueUnlessMemory};
ghost use Rattle.vale_words.specs.FirstFault.{IsFirstFault};
ghost use Rattle.vale_words.specs.Words.{option_text, option_of, IsValue, is_chosen, open_count, with_setting, options_of, nothing_chosen, ChoosesFrom, AreOptionsFrom, texts};
ghost use Rattle.vale_words.specs.declared.job.Options.{Options};
ghost use Rattle.vale_words.specs.declared.options.OptionName.{OptionName};
ghost use Rattle.vale_words.specs.declared.options.Setting.{Setting};

use crate::numbers::{number_within, read_schedule, small_number_within};
use crate::{Options, Schedule, WordFault};
use std::alloc::Global;
use vale_base::{
    FIRST_GENERATION_DEFAULT, FRAMES_DEFAULT, FRAMES_LIMIT, Fail, Memory, TICKS_DEFAULT,
    TICKS_LIMIT, WORKERS_DEFAULT, WORKERS_LIMIT,
};

/// What an option is of.
#[derive(Clone, Copy, Debug, PartialEq, Eq)]
pub enum OptionName {
    Workers,
    Ticks,
    Frames,
    FirstGeneration,
    Schedule,
}

/// What an option sets.
#[derive(Drop)]
pub enum Setting {
    Workers(u32),
    Ticks(u64),
    Frames(u32),
    FirstGeneration(u64),
    Schedule(Schedule),
}

/// What the options that were read so far set.
#[derive(Drop)]
pub struct Chosen {
    pub workers: Option<u32>,
    pub ticks: Option<u64>,
    pub frames: Option<u32>,
    pub first: Option<u64>,
    pub schedule: Option<Schedule>,
}

fn option_named(word: &str) -> Option<OptionName>
    ensures found { IfSome result (λ o. option_text o ≡ word.now) }
    ensures complete { (o : OptionName) → option_text o ≡ word.now → result ≡ Some o }
{
    match word {
        "--workers" => Some(OptionName::Workers),
        "--ticks" => Some(OptionName::Ticks),
        "--frames" => Some(OptionName::Frames),
        "--first-generation" => Some(OptionName::FirstGeneration),
        "--schedule" => Some(OptionName::Schedule),
        _ => None,
    }
}

// What the option sets with this word, where the word is lawful for it.
fn read_setting(alloc: Global, option: OptionName, word: &str) -> Result<Option<Setting>, Memory>
    ensures found { IfOk result (λ o. IfSome o (λ s. (option_of s ≡ option) × IsValue word.now s)) }
    ensures complete { (s : Setting) → option_of s ≡ option → IsValue word.now s → IfOk result (λ o. o ≡ Some s) }
{
    match option {
        OptionName::Workers => {
            Ok(small_number_within(word, 1, WORKERS_LIMIT).map(Setting::Workers))
        }
        OptionName::Ticks => Ok(number_within(word, 1, TICKS_LIMIT).map(Setting::Ticks)),
        OptionName::Frames => Ok(small_number_within(word, 1, FRAMES_LIMIT).map(Setting::Frames)),
        OptionName::FirstGeneration => {
            Ok(number_within(word, 1, u64::MAX).map(Setting::FirstGeneration))
        }
        OptionName::Schedule => Ok(read_schedule(alloc, word)?.map(Setting::Schedule)),
    }
}

impl Chosen {
    fn nothing() -> Self
        ensures { result ≡ nothing_chosen }
    {
        Chosen {
            workers: None,
            ticks: None,
            frames: None,
            first: None,
            schedule: None,
        }
    }

    fn has(&self, option: OptionName) -> bool
        ensures { result ≡ is_chosen option self.now }
    {
        match option {
            OptionName::Workers => self.workers.is_some(),
            OptionName::Ticks => self.ticks.is_some(),
            OptionName::Frames => self.frames.is_some(),
            OptionName::FirstGeneration => self.first.is_some(),
            OptionName::Schedule => self.schedule.is_some(),
        }
    }

    fn with(self, setting: Setting) -> Self
        ensures { result ≡ with_setting setting self }
    {
        match setting {
            Setting::Workers(workers) => Chosen {
                workers: Some(workers),
                ..self
            },
            Setting::Ticks(ticks) => Chosen {
                ticks: Some(ticks),
                ..self
            },
            Setting::Frames(frames) => Chosen {
                frames: Some(frames),
                ..self
            },
            Setting::FirstGeneration(first) => Chosen {
                first: Some(first),
                ..self
            },
            Setting::Schedule(schedule) => Chosen {
                schedule: Some(schedule),
                ..self
            },
        }
    }

    fn into_options(self) -> Options
        ensures { result ≡ options_of self }
    {
        Options {
            workers: self.workers.unwrap_or(WORKERS_DEFAULT),
            ticks: self.ticks.unwrap_or(TICKS_DEFAULT),
            frames: self.frames.unwrap_or(FRAMES_DEFAULT),
            first: self.first.unwrap_or(FIRST_GENERATION_DEFAULT),
            schedule: self.schedule,
        }
    }
}

// The fault at a word.
pub fn fault_at<T>(index: u32) -> Result<T, Fail<WordFault>>
    ensures { result ≡ Err (Fail.Is (record { index = index })) }
{
    Err(Fail::Is(WordFault { index }))
}

// Reads the options that are left. The index of a fault counts from the first of these words.
fn options_from(alloc: Global, chosen: Chosen, words: &[String]) -> Result<Options, Fail<WordFault>>
    ensures found { IfOk result (ChoosesFrom chosen (texts words.now)) }
    ensures complete { (o : Options) → ChoosesFrom chosen (texts words.now) o → IsValueUnlessMemory result (λ p. p ≡ o) }
    ensures fault { IfFault result (λ f. IsFirstFault (AreOptionsFrom chosen) (texts words.now) f.index) }
    ensures near { IfFault result (λ f. f.index ≤ 2 * open_count chosen) }
{
    let [key, behind @ ..] = words else {
        return Ok(chosen.into_options());
    };
    let Some(option) = option_named(key.as_str()) else {
        return fault_at(0);
    };
    if chosen.has(option) {
        return fault_at(0);
    }
    let [value, more @ ..] = behind else {
        return fault_at(1);
    };
    let Some(setting) = read_setting(alloc, option, value.as_str())? else {
        return fault_at(1);
    };
    match options_from(alloc, chosen.with(setting), more) {
        Ok(options) => Ok(options),
        Err(Fail::Is(fault)) => fault_at(fault.index + 2),
        Err(Fail::Memory) => Err(Fail::Memory),
    }
}

/// Reads the options of a run. The index of a fault counts from the first of these words.
pub fn read_options(alloc: Global, words: &[String]) -> Result<Options, Fail<WordFault>>
    ensures found { IfOk result (ChoosesFrom nothing_chosen (texts words.now)) }
    ensures complete { (o : Options) → ChoosesFrom nothing_chosen (texts words.now) o → IsValueUnlessMemory result (λ p. p ≡ o) }
    ensures fault { IfFault result (λ f. IsFirstFault (AreOptionsFrom nothing_chosen) (texts words.now) f.index) }
    ensures near { IfFault result (λ f. f.index ≤ 10) }
{
    options_from(alloc, Chosen::nothing(), words)
}
