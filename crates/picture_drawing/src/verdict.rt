//! The verdict on a run, in a few words.

use crate::svg::{Svg, draw, four, ten};
use base_words::{Location, Word};
use machine_steps::{Left, Verdict, Why};

/// Why a run stops.
fn reason_of(why: Why) -> &'static str {
    match why {
        Why::Operation => "operation outside the profile",
        Why::Operand => "no address for the operation",
        Why::Card => "no card left",
        Why::Quotient => "quotient too long",
        Why::Overflow => "overflow",
        Why::Digit => "digit neither 8 nor 9",
        Why::Programmed => "programmed stop",
        Why::Next => "next address no location",
    }
}

/// Writes which word at which location is on no list.
fn write_unlisted(svg: &mut Svg, at: Location, word: Word) {
    let (number, digits) = (at.number(), word.digits());
    let sign = if word.minus() { "-" } else { "+" };
    draw!(svg: sign (ten(digits)) " at " (four(number)) " isn't listed");
}

/// Writes in which way a run leaves the notes.
fn write_way(svg: &mut Svg, what: Left) {
    match what {
        Left::Unlisted(at, word) => write_unlisted(svg, at, word),
        Left::TooOften(from, onto) => {
            let (from, onto) = (from.number(), onto.number());
            draw!(svg: (four(from)) " to " (four(onto)) " too often");
        }
        Left::Switch => draw!(svg: "the programmed switch"),
        Left::LoadCard => draw!(svg: "a load card"),
        Left::NotBack(exit, onto) => {
            let (exit, onto) = (exit.number(), onto.number());
            draw!(svg: (four(exit)) " to " (four(onto)) " isn't the way back");
        }
    }
}

/// Writes that a run keeps to the notes until it stops.
fn write_kept(svg: &mut Svg, bound: u64, why: Why) {
    let reason = reason_of(why);
    draw!(svg: "kept to the notes until it stopped (" reason "); bound " bound " word times");
}

/// Writes that a run leaves the notes with a step, which begins when so many word times are used.
fn write_left(svg: &mut Svg, what: Left, step: u64, used: u64) {
    if step == 0 {
        draw!(svg: "left the notes before any step: ");
    } else {
        draw!(svg: "left the notes with step " step ", begun at " used ": ");
    }
    write_way(svg, what);
}

/// Writes a verdict.
pub fn write_verdict(svg: &mut Svg, verdict: &Verdict) {
    match *verdict {
        Verdict::Kept { bound, why, .. } => write_kept(svg, bound, why),
        Verdict::Left { what, step, used } => write_left(svg, what, step, used),
    }
}
