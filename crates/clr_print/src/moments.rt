//! Moments as they are printed.
ghost use Rattle.std.specs.Prelude.{◌≡◌, ◌≤◌, ◌<◌, ◌++◌, ◌∷◌, ℕ, ℤ, IfOk, IsOk, OnOk, neg_ℤ, pos};
ghost use Rattle.std.specs.Prelude.{string_bytes, ◌≤ℤ◌, ◌+ℤ◌, ◌*ℤ◌};
ghost use Rattle.jiff.specs.Words.{civil_nanos, nanos_of_seconds};
ghost use Rattle.clr_print.specs.Moments.{face_at, face_text, local_seconds, moment_text};
ghost use Rattle.clr_print.specs.Moments.{offset_text, two_digits};

use clr_rules::Moment;
use jiff::civil::DateTime;
use jiff::tz::Offset;
use jiff::{Error, Timestamp};
use std::alloc::{AllocError, Global};
use std::marker::Model;

/// What a calendar and a clock show.
#[derive(Clone, Copy, Debug, PartialEq, Eq)]
pub(crate) struct ClockFace {
    year: u16,
    month: u8,
    day: u8,
    hour: u8,
    minute: u8,
    second: u8,
}

/// The offset of a clock from UTC, in minutes, east of Greenwich positive.
#[derive(Clone, Copy)]
pub struct ClockOffset {
    minutes: i16,
}

impl Model for ClockOffset {
    ghost use Rattle.std.specs.Prelude.{ℤ, neg_ℤ, pos, ◌≤ℤ◌};

    ghost Value = { ℤ };

    ghost view = { λ o. o.minutes };

    ghost invariant = { λ o. (neg_ℤ (pos 720) ≤ℤ o.minutes) × (o.minutes ≤ℤ pos 840) };

    ghost inverse = { λ minutes. record { minutes = minutes } };
}

impl ClockOffset {
    /// The offset that is this many minutes east of Greenwich.
    pub fn new(minutes: i16) -> ClockOffset
        requires low { neg_ℤ (pos 720) ≤ℤ minutes }
        requires high { minutes ≤ℤ pos 840 }
        ensures { result ≡ minutes }
    {
        ClockOffset { minutes }
    }

    fn minutes(self) -> i16
        ensures value { result ≡ self }
        ensures low { neg_ℤ (pos 720) ≤ℤ result }
        ensures high { result ≤ℤ pos 840 }
    {
        self.minutes
    }
}

/// A moment as a clock at the offset shows it, and the offset: 26 bytes, as `1970-01-01 00:01:44
/// +00:00`.
pub fn moment_text(alloc: Global, moment: Moment, offset: ClockOffset) -> Result<String, AllocError>
    ensures { IfOk result (λ text. string_bytes text ≡ moment_text moment offset) }
{
    text_at(alloc, moment.seconds(), offset.minutes())
}

#[tactic(auto, unfolding(crate::specs::Moments::moment_text))]
fn text_at(alloc: Global, seconds: u64, offset: i16) -> Result<String, AllocError>
    requires moment { seconds ≤ 4102444799 }
    requires low { neg_ℤ (pos 720) ≤ℤ offset }
    requires high { offset ≤ℤ pos 840 }
    ensures { IfOk result (λ text. string_bytes text ≡ moment_text seconds offset) }
{
    let mut text = String::new(alloc);
    push_face(&mut text, face_at(seconds, offset))?;
    text.push(' ')?;
    push_offset(&mut text, offset)?;
    Ok(text)
}

/// What the calendar and the clock at an offset show at a moment.
fn face_at(seconds: u64, offset: i16) -> ClockFace
    requires moment { seconds ≤ 4102444799 }
    requires low { neg_ℤ (pos 720) ≤ℤ offset }
    requires high { offset ≤ℤ pos 840 }
    ensures shows { result ≡ face_at (local_seconds seconds offset) }
    ensures year { result.year < 10000 }
    ensures date { (result.month < 100) × (result.day < 100) }
    ensures time { (result.hour < 100) × (result.minute < 100) × (result.second < 100) }
{
    let shown = local_time(seconds, offset).unwrap();
    let date = shown.date();
    let time = shown.time();
    ClockFace {
        year: date.year() as u16,
        month: date.month() as u8,
        day: date.day() as u8,
        hour: time.hour() as u8,
        minute: time.minute() as u8,
        second: time.second() as u8,
    }
}

/// The local time at an offset.
fn local_time(seconds: u64, offset: i16) -> Result<DateTime, Error>
    requires moment { seconds ≤ 4102444799 }
    requires low { neg_ℤ (pos 720) ≤ℤ offset }
    requires high { offset ≤ℤ pos 840 }
    ensures succeeds { IsOk result }
    ensures time { IfOk result (λ shown. civil_nanos shown
        ≡ nanos_of_seconds (pos seconds) +ℤ nanos_of_seconds (offset *ℤ pos 60)) }
{
    let timestamp = Timestamp::from_second(seconds as i64)?;
    let zone = Offset::from_seconds(offset as i32 * 60)?;
    Ok(zone.to_datetime(timestamp))
}

/// Writes the date and the time.
fn push_face(out: &mut String, face: ClockFace) -> Result<(), AllocError>
    requires year { face.year < 10000 }
    requires date { (face.month < 100) × (face.day < 100) }
    requires time { (face.hour < 100) × (face.minute < 100) × (face.second < 100) }
    ensures { OnOk result (string_bytes out.new ≡ string_bytes out.old ++ face_text face) }
{
    push_two(out, (face.year / 100) as u8)?;
    push_two(out, (face.year % 100) as u8)?;
    out.push('-')?;
    push_two(out, face.month)?;
    out.push('-')?;
    push_two(out, face.day)?;
    out.push(' ')?;
    push_two(out, face.hour)?;
    out.push(':')?;
    push_two(out, face.minute)?;
    out.push(':')?;
    push_two(out, face.second)?;
    Ok(())
}

/// Writes an offset, as `+05:30`.
fn push_offset(out: &mut String, offset: i16) -> Result<(), AllocError>
    requires low { neg_ℤ (pos 720) ≤ℤ offset }
    requires high { offset ≤ℤ pos 840 }
    ensures { OnOk result (string_bytes out.new ≡ string_bytes out.old ++ offset_text offset) }
{
    let minutes = offset.unsigned_abs();
    out.push(if offset < 0 { '-' } else { '+' })?;
    push_two(out, (minutes / 60) as u8)?;
    out.push(':')?;
    push_two(out, (minutes % 60) as u8)?;
    Ok(())
}

/// Writes a number below 100 in two digits.
fn push_two(out: &mut String, number: u8) -> Result<(), AllocError>
    requires { number < 100 }
    ensures { OnOk result (string_bytes out.new ≡ string_bytes out.old ++ two_digits number) }
{
    out.push((48 + number / 10) as char)?;
    out.push((48 + number % 10) as char)?;
    Ok(())
}
