ghost use Rattle.std.specs.Prelude.{◌≡◌, ◌⊎◌, ◌↔◌, ◌+◌, Some, None, IfSome};
ghost use Rattle.std.specs.Option.{option_map};
ghost use Rattle.timeago.specs.Codes.{coded_language};
ghost use Rattle.tongues.specs.Any.{any_speech};
ghost use Rattle.streams.specs.Causes.{Rose};
ghost use Rattle.streams.specs.Ends.{most_input, EndsAs, EndsBy};
ghost use Rattle.streams.specs.Stands.{Stands};
ghost use Rattle.streams.specs.Whole.{TookAtMost, TookMore};
ghost use Rattle.tell.specs.Commands.{load_count, two_words, three_words, asked};
ghost use Rattle.tell.specs.Run.{planned, RefusesBundle, AcceptsBundle, ReadFaultRose};
ghost use Rattle.tell.specs.BundleZones.{most_bundle, bundle_zones};
ghost use Rattle.tell.specs.Reports.{IsReplyWith, Reported, IsReported};
ghost use Rattle.tell.specs.Standing.{StandsAfter, NeedsNoBundle, ReadsNothing};
ghost use Rattle.tell.specs.declared.program.Command.{Command};
ghost use Rattle.tell.specs.declared.program.Command.TheVariants as command;

use crate::ago::{AgoEngine, number};
use crate::bundle::{BundleError, zones_of_bytes};
use crate::engine::AtEngine;
use crate::load::load;
use std::alloc::Global;
use streams::{ReadError, Sink, Source, Status, read_all, serve};
use timeago::{AnyLanguage, from_isolang};

const MAX_BUNDLE: usize = 4_194_304;

// The most zones of a large input.
const MAX_COUNT: u128 = 20_000;

// What the words after the program's name ask for.
#[derive(Clone, Copy)]
enum Command {
    /// The lines of the input name dates, which are told in the zones of the bundle.
    At(AnyLanguage),
    /// The lines of the input are seconds, which are told in words.
    Ago(AnyLanguage),
    /// A large input is made, with so many zones and lines.
    Load(u32),
}

fn read_at(lang: &str) -> Option<Command>
    ensures { result ≡ option_map (λ l. command.At l) (coded_language lang.now) }
{
    Some(Command::At(from_isolang(lang)?))
}

fn read_ago(lang: &str) -> Option<Command>
    ensures { result ≡ option_map (λ l. command.Ago l) (coded_language lang.now) }
{
    Some(Command::Ago(from_isolang(lang)?))
}

// The number from 1 to 20,000 that a word writes without a leading zero.
fn load_count(word: &str) -> Option<u32>
    ensures { result ≡ load_count word.now }
{
    let digits = word.as_bytes();
    if let [b'0', ..] = digits {
        return None;
    }
    let count = number(digits)?;
    if count > MAX_COUNT {
        return None;
    }
    Some(count as u32)
}

fn read_load(count: &str) -> Option<Command>
    ensures { result ≡ option_map (λ n. command.Load n) (load_count count.now) }
{
    Some(Command::Load(load_count(count)?))
}

// The command that a word names, and a word behind it.
fn read_two(name: &str, word: &str) -> Option<Command>
    ensures { result ≡ two_words name.now word.now }
{
    if name == "ago" {
        read_ago(word)
    } else if name == "load" {
        read_load(word)
    } else {
        None
    }
}

// And two words behind it, of which the second names a file.
fn read_three(name: &str, lang: &str) -> Option<Command>
    ensures { result ≡ three_words name.now lang.now }
{
    if name == "at" { read_at(lang) } else { None }
}

fn read_command(args: &[String]) -> Option<Command>
    ensures { result ≡ asked args.now }
{
    match args {
        [name, lang, _] => read_three(name.as_str(), lang.as_str()),
        [name, word] => read_two(name.as_str(), word.as_str()),
        _ => None,
    }
}

/// Replies to the lines of the input in the zones of the bundle.
pub fn at<B: Source, I: Source, O: Sink>(
    alloc: Global,
    language: AnyLanguage,
    bundle: &mut B,
    input: &mut I,
    output: &mut O,
) -> Status
    ensures done { result ≡ Status.Done → Reported (any_speech language)
        (B.left bundle.old) (B.left bundle.new) (I.left input.old) (I.left input.new)
        (O.written output.old) (O.written output.new) }
    ensures stands { StandsAfter (Some (command.At language)) (B.left bundle.old) result
        (I.left input.old) (I.left input.new) (O.written output.old) (O.written output.new) }
    ensures untouched { result ≡ Status.Bundle
        → (input.new ≡ input.old) × (output.new ≡ output.old) }
    ensures ends { EndsBy
        (planned (Some (command.At language)) (B.left bundle.old) (I.left input.old)) result }
    ensures no_usage { result ≡ Status.Usage → ⊥ }
    ensures bundle { result ≡ Status.Bundle
        → RefusesBundle (Some (command.At language)) (B.left bundle.old) }
    ensures accepted { result ≡ Status.TooLong
        → AcceptsBundle (Some (command.At language)) (B.left bundle.old) }
    ensures too_long { result ≡ Status.TooLong → TookMore (I.left input.old) most_input }
    ensures read_fault { result ≡ Status.ReadFault
        → Rose (B.faults bundle.old) (B.faults bundle.new)
        ⊎ Rose (I.faults input.old) (I.faults input.new) }
    ensures write_fault { result ≡ Status.WriteFault
        → Rose (O.faults output.old) (O.faults output.new) }
    ensures bundle_taken { TookAtMost (B.left bundle.old) (B.left bundle.new) (most_bundle + 1) }
    ensures input_taken { TookAtMost (I.left input.old) (I.left input.new) (most_input + 1) }
{
    let bytes = match read_all(alloc, bundle, MAX_BUNDLE) {
        Ok(bytes) => bytes,
        Err(ReadError::Fault) => return Status::ReadFault,
        Err(ReadError::Memory) => return Status::Memory,
        Err(ReadError::TooLong) => return Status::Bundle,
    };
    let zones = match zones_of_bytes(alloc, bytes) {
        Ok(zones) => zones,
        Err(BundleError::Memory) => return Status::Memory,
        Err(BundleError::Bundle) => return Status::Bundle,
    };
    let Ok(engine) = AtEngine::new(alloc, language, zones) else {
        return Status::Memory;
    };
    serve(alloc, &engine, input, output)
}

/// All that the program does.
///
/// `args` are the words after the program's name: `at LANG` and the name of a bundle's file, or `ago LANG`, where LANG is
/// one of the eighteen codes of `timeago::from_isolang`, or `load N`, where N is 1 to 20,000 without a leading zero. With
/// `at` each line of the input is a date, which is placed in a zone of the bundle and told as a distance; with `ago` it is a
/// number of seconds, which is told as a distance, and the bundle is not touched. With `load` neither source is touched: a
/// bundle of N zones and a line for each are made and run, and what the answers come to is written.
///
/// It ends at the first of: words that are no command (`Usage`), a bundle that cannot be read (`ReadFault`) or is refused
/// (`Bundle`), and then as `serve` does; or where memory cannot be found (`Memory`). A bundle is refused that has over
/// 4,194,304 bytes, a length that 4 does not divide, or no zone list.
pub fn run<B: Source, I: Source, O: Sink>(
    alloc: Global,
    args: &[String],
    bundle: &mut B,
    input: &mut I,
    output: &mut O,
) -> Status
    // What the command reads was read to its end, and the sink gained one answer for each line, and nothing else.
    ensures done { result ≡ Status.Done → IsReported (asked args.now)
        (B.left bundle.old) (B.left bundle.new) (I.left input.old) (I.left input.new)
        (O.written output.old) (O.written output.new) }

    // What the sink gained for the bytes that were taken, after each status.
    ensures stands { StandsAfter (asked args.now) (B.left bundle.old) result
        (I.left input.old) (I.left input.new) (O.written output.old) (O.written output.new) }
    ensures usage_untouched { result ≡ Status.Usage
        → (bundle.new ≡ bundle.old) × (input.new ≡ input.old) × (output.new ≡ output.old) }
    ensures bundle_untouched { result ≡ Status.Bundle
        → (input.new ≡ input.old) × (output.new ≡ output.old) }
    ensures no_bundle { NeedsNoBundle (asked args.now) → bundle.new ≡ bundle.old }
    ensures no_source { ReadsNothing (asked args.now)
        → (bundle.new ≡ bundle.old) × (input.new ≡ input.old) }

    // It ends as planned, or with a fault, or for want of memory.
    ensures ends { EndsBy
        (planned (asked args.now) (B.left bundle.old) (I.left input.old)) result }
    ensures complete { planned (asked args.now) (B.left bundle.old) (I.left input.old)
        ≡ Some Status.Done → EndsAs Status.Done result }

    // Each refusal has its cause, and a fault was counted.
    ensures usage { result ≡ Status.Usage ↔ (asked args.now ≡ None) }
    ensures bundle { result ≡ Status.Bundle → RefusesBundle (asked args.now) (B.left bundle.old) }
    ensures too_long { result ≡ Status.TooLong → TookMore (I.left input.old) most_input
        × AcceptsBundle (asked args.now) (B.left bundle.old) }
    ensures read_fault { result ≡ Status.ReadFault → ReadFaultRose (asked args.now)
        (B.faults bundle.old) (B.faults bundle.new) (I.faults input.old) (I.faults input.new) }
    ensures write_fault { result ≡ Status.WriteFault
        → Rose (O.faults output.old) (O.faults output.new) }

    // Reading stops past the limits.
    ensures bundle_taken { TookAtMost (B.left bundle.old) (B.left bundle.new) (most_bundle + 1) }
    ensures input_taken { TookAtMost (I.left input.old) (I.left input.new) (most_input + 1) }
{
    match read_command(args) {
        Some(Command::At(language)) => at(alloc, language, bundle, input, output),
        Some(Command::Ago(language)) => serve(alloc, &AgoEngine::new(language), input, output),
        Some(Command::Load(count)) => load(alloc, count, output),
        None => Status::Usage,
    }
}
