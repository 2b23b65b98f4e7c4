ghost use Rattle.std.specs.Prelude.{◌≡◌, IfOk, Some, string_bytes};
ghost use Rattle.std.specs.Option.{option_map};
ghost use Rattle.report.specs.Words.{algorithm_words};
ghost use Rattle.report.specs.Lines.{outcome_line, identity_lines, sealing_lines, limits_lines, purse_lines, file_lines, log_line, card_lines, files_of, description};
ghost use Rattle.report.specs.Keys.{KeysNotShown};

use card::{CardPages, CardView, Header, HostRefusal, Limits, Purse, Record, read_card};
use memory::Memory;
use std::alloc::{AllocError, Global};
use std::fmt;
use text::Hex;

// What came of a call: accepted, or the number and the reason of its refusal.
pub fn outcome(
    heap: Global,
    call: &str,
    answer: Result<(), HostRefusal>,
) -> Result<String, AllocError>
    ensures { IfOk result (λ s. string_bytes s ≡ outcome_line call.now answer) }
{
    match answer {
        Ok(()) => format!(in heap; "{call}: accepted"),
        Err(refusal) => format!(in heap;
            "{call}: refused by number {}, {refusal}",
            refusal.number()
        ),
    }
}

// The algorithm of a card's seals, by its byte.
// Form: a number, since a card may hold any byte here and a host may have any registered.
#[derive(Drop)]
struct Algorithm(u8);

impl fmt::Display for Algorithm {
    ghost output = { λ a. Some (algorithm_words a.0) };

    fn fmt<W: fmt::Write>(&self, f: &mut fmt::Formatter<W>) -> fmt::Result {
        f.write_str(match self.0 {
            0x00 => "SEED",
            0x10 => "Triple DES",
            _ => "unknown",
        })
    }
}

// Which card it is, and whether it can be used.
#[derive(Drop)]
struct IdentityLines<'a>(&'a Header);

impl<'a> fmt::Display for IdentityLines<'a> {
    ghost output = { λ lines. Some (identity_lines lines.0.now) };

    fn fmt<W: fmt::Write>(&self, f: &mut fmt::Formatter<W>) -> fmt::Result {
        write!(
            f,
            "card number     {}\nissuing centre  {}\nlife cycle      {}\nblock flag      {}\n",
            Hex(&self.0.idep),
            Hex(&[self.0.idcenter]),
            self.0.life,
            self.0.block
        )
    }
}

// The algorithm of the card's seals and the version of its keys.
#[derive(Drop)]
struct SealingLines<'a>(&'a Header);

impl<'a> fmt::Display for SealingLines<'a> {
    ghost output = { λ lines. Some (sealing_lines lines.0.now) };

    fn fmt<W: fmt::Write>(&self, f: &mut fmt::Formatter<W>) -> fmt::Result {
        write!(
            f,
            "algorithm       {} ({})\nkey version     {}\n",
            Hex(&[self.0.algorithm]),
            Algorithm(self.0.algorithm),
            Hex(&[self.0.version])
        )
    }
}

#[derive(Drop)]
struct LimitsLines<'a>(&'a Limits);

impl<'a> fmt::Display for LimitsLines<'a> {
    ghost output = { λ lines. Some (limits_lines lines.0.now) };

    fn fmt<W: fmt::Write>(&self, f: &mut fmt::Formatter<W>) -> fmt::Result {
        write!(
            f,
            "ride ceiling    {} won\ntotal limit     {} won\n",
            self.0.ceiling, self.0.limit
        )
    }
}

#[derive(Drop)]
struct PurseLines<'a>(&'a Purse);

impl<'a> fmt::Display for PurseLines<'a> {
    ghost output = { λ lines. Some (purse_lines lines.0.now) };

    fn fmt<W: fmt::Write>(&self, f: &mut fmt::Formatter<W>) -> fmt::Result {
        write!(
            f,
            "total           {} won\ntransaction no. {}\n",
            self.0.total, self.0.nt
        )
    }
}

// The three files, by their SFI.
#[derive(Drop)]
struct Files {
    file_12: [u8; 16],
    file_13: [u8; 16],
    file_14: [u8; 16],
}

impl Files {
    // Pages 3, 4 and 5.
    fn of<M: Memory>(pages: &CardPages<M>) -> Files
        ensures { result ≡ files_of (M.pages pages.now.memory.now) }
    {
        Files {
            file_12: pages.page(3),
            file_13: pages.page(4),
            file_14: pages.page(5),
        }
    }
}

impl fmt::Display for Files {
    ghost output = { λ files. Some (file_lines files) };

    fn fmt<W: fmt::Write>(&self, f: &mut fmt::Formatter<W>) -> fmt::Result {
        write!(
            f,
            "file 12         {}\nfile 13         {}\nfile 14         {}\n",
            Hex(&self.file_12),
            Hex(&self.file_13),
            Hex(&self.file_14)
        )
    }
}

// How many records the log holds, and the newest.
#[derive(Drop)]
struct LogLine {
    held: u8,
    newest: Option<Record>,
}

impl fmt::Display for LogLine {
    ghost output = { λ log. Some (log_line log.held log.newest) };

    fn fmt<W: fmt::Write>(&self, f: &mut fmt::Formatter<W>) -> fmt::Result {
        match self.newest {
            None => writeln!(f, "log             no record held"),
            Some(newest) => writeln!(
                f,
                "log             {} held, the newest a {} of {} won, NT {}, total then {} won",
                self.held, newest.kind, newest.amount, newest.nt, newest.total
            ),
        }
    }
}

// All lines of a card.
#[derive(Drop)]
struct CardLines<'a> {
    card: &'a CardView,
    files: Files,
}

impl<'a> fmt::Display for CardLines<'a> {
    ghost output = { λ lines. Some (card_lines lines.card.now lines.files) };

    fn fmt<W: fmt::Write>(&self, f: &mut fmt::Formatter<W>) -> fmt::Result {
        write!(
            f,
            "{}{}{}{}{}{}",
            IdentityLines(&self.card.header),
            SealingLines(&self.card.header),
            LimitsLines(&self.card.limits),
            PurseLines(&self.card.purse),
            self.files,
            LogLine {
                held: self.card.purse.held,
                newest: self.card.newest
            }
        )
    }
}

// The card that the pages of a memory are, in words; none where they are no card. The keys are not shown.
#[tactic(auto, using(crate::proofs::NotShown::keys_not_shown))]
pub fn describe<M: Memory>(heap: Global, memory: &M) -> Result<Option<String>, AllocError>
    ensures text { IfOk result (λ o. option_map string_bytes o ≡ description (M.pages memory.now)) }
    ensures keys { KeysNotShown (M.pages memory.now) }
{
    let Some(card) = read_card(memory) else {
        return Ok(None);
    };
    let lines = CardLines {
        card: &card,
        files: Files::of(&CardPages::of(memory).unwrap()),
    };
    let text = lines.to_string(heap)?;
    Ok(Some(text))
}
