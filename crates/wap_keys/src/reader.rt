//! Reading one key after the other.
ghost use Rattle.std.specs.Prelude.{◌≡◌, ◌≢◌, ◌<◌, ◌≤◌, [], length, true, false, Err, IfOk, OnOk};
ghost use Rattle.std.specs.Prelude.{OnErr};
ghost use Rattle.wap_devices.specs.Sources.{SourceSeen};
ghost use Rattle.wap_keys.specs.declared.limits.TheConstants.{LINE_LIMIT};
ghost use Rattle.wap_keys.specs.declared.fault.KeyFault.TheVariants.{NoMemory as OutOfMemory};
ghost use Rattle.wap_keys.specs.KeyReaders.{HasRead, Answers, GivesUp, Falls, CountsFaults};
ghost use Rattle.wap_keys.specs.Prefixes.{is_unended};
ghost use Rattle.wap_keys.specs.inside.Taking.{turn_of, or_end, TakesLine, ReadsPrefix, ReadsMore};
ghost use Rattle.wap_keys.specs.inside.Taking.{LosesPiece, IsOpen, Turns, Steps, Loses};

use crate::ending::Step;
use crate::line::{Says, without_return};
use crate::prefix::{Prefix, take_prefix, whole_line};
use crate::{Ending, KEYS_LIMIT, Key, KeyFault, Next, PIECE_LIMIT};
use std::alloc::Global;
use std::marker::Model;
use wap_base::NoMemory;
use wap_devices::{Failed, Source};

/// What a line comes to.
#[derive(Drop)]
pub(crate) enum Taken<T> {
    /// It isn't whole yet.
    Begun,
    /// What it says, or why it is no key line.
    Line(Result<Option<T>, KeyFault>),
}

/// What a read comes to.
#[derive(Clone, Copy)]
pub(crate) enum More {
    Piece,
    AtEnd,
    /// There is a byte past the limit.
    Past,
    Failed,
}

/// Reads keys as their bytes come: a key is given before more bytes are asked for than it needs.
/// After an end, or when out of memory, no more keys are to be asked for.
#[derive(Drop)]
pub struct Reader {
    /// The line that is begun, as far as earlier pieces have it.
    line: Vec<u8>,
    /// The last piece; what stands in it from the place `at` on isn't read yet.
    piece: Vec<u8>,
    at: usize,
    /// What is read at a time.
    buffer: [u8; PIECE_LIMIT],
    /// The number of the line that is begun.
    number: u32,
    /// How many bytes were taken.
    count: usize,
    /// Whether the source came to its end.
    over: bool,
}

impl Model for Reader {
    ghost use Rattle.std.specs.Prelude.{drop, length, true, ◌≡◌, ◌≤◌, ◌+◌, ◌-◌, ◌++◌};
    ghost use Rattle.wap_keys.specs.declared.limits.TheConstants.{KEYS_LIMIT, LINE_LIMIT};
    ghost use Rattle.wap_keys.specs.KeyReaders.{Reading};
    ghost use Rattle.wap_keys.specs.Prefixes.{is_unended};

    ghost Value = { Reading };

    ghost view = { λ reader. record {
      unread = reader.line.items ++ drop reader.at
          reader.piece.items;
      number = reader.number;
      count = reader.count;
      over = reader.over;
    } };

    ghost invariant = { λ reader. (reader.at ≤ length reader.piece.items)
        × (is_unended reader.line.items ≡ true) × (length reader.line.items ≤ LINE_LIMIT)
        × (reader.number + (length reader.line.items + (length reader.piece.items - reader.at)) ≤
        reader.count + 1) × (reader.count ≤ KEYS_LIMIT) };
}

/// Reads the next bytes into so long a prefix of the buffer, and answers their number.
fn read_prefix<I: Source>(source: &mut I, buffer: &mut [u8], room: usize) -> Result<usize, Failed>
    requires some { 0 < room }
    requires within { room ≤ length buffer.old }
    ensures { ReadsPrefix room buffer.old buffer.new (I.seen source.old) (I.seen source.new)
        result }
{
    source.read(buffer.split_at_mut(room).0)
}

/// What a line of a number comes to, if it says something.
fn turn_of<T: Drop>(line: u32, said: Result<Option<T>, KeyFault>) -> Option<Step<T>>
    ensures { result ≡ turn_of line said }
{
    match said {
        Ok(None) => None,
        Ok(Some(key)) => Some(Step::Said(key)),
        Err(fault) => Some(Step::Ended(Ending::BadKey { line, fault })),
    }
}

impl Reader {
    /// A reader that has read nothing.
    pub fn new(alloc: Global) -> Reader
        ensures read { (seen : SourceSeen) → HasRead seen seen [] [] result }
        ensures fresh { result ≡ record { unread = []; number = 1; count = 0; over = false } }
        ensures begun { result.over ≡ false }
    {
        Reader {
            line: Vec::new(alloc),
            piece: Vec::new(alloc),
            at: 0,
            buffer: [0; PIECE_LIMIT],
            number: 1,
            count: 0,
            over: false,
        }
    }

    /// Takes a whole line, or one that is too long already. A line that lies in one piece isn't
    /// copied.
    fn take_line<T: Says>(&mut self, alloc: Global) -> Result<Taken<T>, NoMemory>
        ensures { IfOk result (TakesLine T.meaning self.old self.new) }
    {
        if !self.line.as_slice().is_empty() {
            return self.go_on(alloc);
        }
        let (_, unread) = self.piece.as_slice().split_at(self.at);
        let Some(line) = whole_line(unread) else {
            return self.go_on(alloc);
        };
        let said = T::of(alloc, without_return(line))?;
        self.at += line.len() + 1;
        self.number += 1;
        Ok(Taken::Line(said))
    }

    /// Goes on with the line that is begun, and takes it where it is whole or too long already.
    fn go_on<T: Says>(&mut self, alloc: Global) -> Result<Taken<T>, NoMemory>
        ensures { IfOk result (TakesLine T.meaning self.old self.new) }
    {
        let (_, unread) = self.piece.as_slice().split_at(self.at);
        match take_prefix(&mut self.line, unread)? {
            Prefix::Begun => {
                self.piece.clear();
                self.at = 0;
                Ok(Taken::Begun)
            }
            Prefix::Whole(place) => {
                self.at += place + 1;
                let said = T::of(alloc, without_return(&self.line))?;
                self.line.clear();
                self.number += 1;
                Ok(Taken::Line(said))
            }
            Prefix::TooLong => Ok(Taken::Line(Err(KeyFault::TooLong))),
        }
    }

    /// Reads more bytes.
    fn read_more<I: Source>(&mut self, source: &mut I) -> Result<More, NoMemory>
        ensures more { IfOk result (ReadsMore (I.seen source.old) (I.seen source.new)
            self.old self.new) }
        ensures lost { OnErr result (LosesPiece (I.seen source.old) (I.seen source.new)
            self.old) }
    {
        let left = KEYS_LIMIT - self.count;
        let room = if left == 0 { 1 } else { PIECE_LIMIT.min(left) };
        let Ok(count) = read_prefix(source, &mut self.buffer, room) else {
            return Ok(More::Failed);
        };
        if count == 0 {
            self.over = true;
            return Ok(More::AtEnd);
        }
        if left == 0 {
            return Ok(More::Past);
        }
        self.piece.extend_from_slice(self.buffer.split_at(count).0)?;
        self.count += count;
        Ok(More::Piece)
    }

    /// What the last line comes to, which no line feed ends.
    fn finish<T: Says>(&mut self, alloc: Global) -> Result<Step<T>, NoMemory>
        requires unended { is_unended self.old.unread ≡ true }
        requires short { length self.old.unread ≤ LINE_LIMIT }
        ensures said { IfOk result (λ step. step ≡ or_end (turn_of self.old.number
            (T.meaning self.old.unread))) }
        ensures known { OnOk result (T.meaning self.old.unread ≢ Err OutOfMemory) }
        ensures rest { OnOk result (self.new ≡ record self.old { unread = [] }) }
    {
        let (_, unread) = self.piece.as_slice().split_at(self.at);
        self.line.extend_from_slice(unread)?;
        self.at = self.piece.as_slice().len();
        let said = T::of(alloc, &self.line)?;
        self.line.clear();
        match turn_of(self.number, said) {
            Some(step) => Ok(step),
            None => Ok(Step::Ended(Ending::End)),
        }
    }

    /// Reads more bytes after a line that is begun.
    fn read_on<T: Says, I: Source>(
        &mut self,
        alloc: Global,
        source: &mut I,
    ) -> Result<Option<Step<T>>, NoMemory>
        requires { IsOpen self.old }
        ensures turns { IfOk result (Turns T.meaning (I.seen source.old) (I.seen source.new)
            self.old self.new) }
        ensures lost { OnErr result (Loses T.meaning (I.seen source.old) (I.seen source.new)
            self.old) }
    {
        match self.read_more(source)? {
            More::Piece => Ok(None),
            More::AtEnd => Ok(Some(self.finish(alloc)?)),
            More::Past => Ok(Some(Step::Ended(Ending::TooManyKeys))),
            More::Failed => Ok(Some(Step::Ended(Ending::ReadFault))),
        }
    }

    /// Takes a line, or reads more bytes after one that is only begun.
    fn turn<T: Says, I: Source>(
        &mut self,
        alloc: Global,
        source: &mut I,
    ) -> Result<Option<Step<T>>, NoMemory>
        requires { self.old.over ≡ false }
        ensures turns { IfOk result (Turns T.meaning (I.seen source.old) (I.seen source.new)
            self.old self.new) }
        ensures lost { OnErr result (Loses T.meaning (I.seen source.old) (I.seen source.new)
            self.old) }
    {
        let line = self.number;
        match self.take_line(alloc)? {
            Taken::Line(said) => Ok(turn_of(line, said)),
            Taken::Begun => self.read_on(alloc, source),
        }
    }

    /// The next key, or what stands beside keys, or how they came to their end.
    pub(crate) fn step<T: Says, I: Source>(
        &mut self,
        alloc: Global,
        source: &mut I,
    ) -> Result<Step<T>, NoMemory>
        ensures steps { IfOk result (Steps T.meaning (I.seen source.old) (I.seen source.new)
            self.old self.new) }
        ensures lost { OnErr result (Loses T.meaning (I.seen source.old) (I.seen source.new)
            self.old) }
    {
        while !self.over {
            if let Some(step) = self.turn(alloc, source)? {
                return Ok(step);
            }
        }
        Ok(Step::Ended(Ending::End))
    }

    /// The next key, or how the keys came to their end.
    // Inlined, so that a key isn't copied once more.
    #[inline(always)]
    pub fn next<I: Source>(&mut self, alloc: Global, source: &mut I) -> Result<Next, NoMemory>
        ensures answers { IfOk result (Answers (I.seen source.old) (I.seen source.new)
            self.old self.new) }
        ensures gives_up { OnErr result (GivesUp (I.seen source.old) (I.seen source.new)
            self.old) }
        ensures falls { IfOk result (Falls self.old self.new) }
        ensures faults { CountsFaults (I.seen source.old).faults (I.seen source.new).faults
            result }
    {
        match self.step::<Key, I>(alloc, source)? {
            Step::Said(key) => Ok(Next::Key(key)),
            Step::Ended(ending) => Ok(Next::Ended(ending)),
        }
    }
}
