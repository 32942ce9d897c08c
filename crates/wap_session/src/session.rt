//! Sessions.
ghost use Rattle.std.specs.Prelude.{◌≡◌, ◌++◌, ◌∷◌, ℕ, List, [], true, false, is_some, is_none};
ghost use Rattle.std.specs.Prelude.{◌&&◌, not, None, Ok};
ghost use Rattle.std.specs.Prelude.{IfOk, OnOk, IfErr, OnErr, IsErrOf};
ghost use Rattle.wap_base.specs.Limits.{AreInRange};
ghost use Rattle.wap_push.specs.Inbox.{HaveWinners};
ghost use Rattle.wap_context.specs.Sites.{IfOver};
ghost use Rattle.wap_world.specs.site.Asking.{Seen, Fails};
ghost use Rattle.wap_world.specs.declared.refusal.Refusal.TheVariants.{Ignored};
ghost use Rattle.wap_world.specs.Lines.{refusal_line};
ghost use Rattle.wap_session.specs.Feeding.{beginning, step_of, TurnsTo, Plays, MissedAt, ShowsOn};
ghost use Rattle.wap_session.specs.Ignoring.{ignores};

use crate::SessionFault;
use crate::keys::fits_nothing;
use crate::standing::{Standing, after, turn};
use std::alloc::Global;
use std::marker::Model;
use std::mem;
use wap_base::{Key, Limits, NoMemory};
use wap_context::Context;
use wap_layout::buffer::Lines;
use wap_push::Inbox;
use wap_world::site::Pages;

/// A browser that is played by keys, with an inbox: it is at rest, waits for the answer to a dialog,
/// or is over. A contract sees its state between two keys.
#[derive(Drop)]
pub struct Session {
    pub(crate) context: Context,
    pub(crate) standing: Standing,
    pub(crate) inbox: Inbox,
}

impl Model for Session {
    ghost use Rattle.wap_session.specs.Feeding.{State};
    ghost use Rattle.wap_session.specs.inside.Turns.{state_of};
    ghost use Rattle.wap_push.specs.Inbox.{HaveWinners};
    ghost use Rattle.wap_tokens.specs.contracts.markup.deck.Item as item;
    ghost use Rattle.std.specs.Coded.{codes};

    ghost Value = { State };

    ghost coded = { Prim.hlevel (codes, item.the_row.coded) };

    ghost view = { λ session. state_of session.context session.standing session.inbox };

    ghost invariant = { λ session. HaveWinners session.inbox session.inbox };
}

impl Session {
    /// A session in which nothing was done. Each key has so many turns. The limits have to be in
    /// their ranges (`are_in_range`).
    pub fn new(alloc: Global, seed: u32, budget: u32, limits: Limits) -> Session
        requires limits { AreInRange limits }
        ensures { (url : List ℕ) → result ≡ beginning
            (record { url = url; seed = seed; budget = budget; limits = limits }) }
    {
        let mut context = Context::new(alloc, seed, limits);
        context.begin_key(budget);
        Session {
            context,
            standing: Standing::Rest,
            inbox: Inbox::new(alloc),
        }
    }

    /// Whether a key failed.
    fn is_over(&self) -> bool
        ensures over { result ≡ self.now.is_over }
        ensures own { HaveWinners self.now.winners self.now.winners }
    {
        match &self.standing {
            Standing::Over => true,
            Standing::Rest | Standing::Waits(_) => false,
        }
    }

    /// Whether no script waits and no key failed.
    fn rests(&self) -> bool
        ensures { result ≡ (is_none self.now.waiting && not self.now.is_over) }
    {
        match &self.standing {
            Standing::Rest => true,
            Standing::Waits(_) | Standing::Over => false,
        }
    }

    /// Plays a key that fits nothing, if that shows outside a dialog without a look at the card or
    /// the inbox, and answers whether it did. The one line that the key shows isn't made:
    /// `refusal_lines` has it. Any other key is left to `feed`.
    pub fn try_ignore(&mut self, key: &Key) -> bool
        ensures when { result ≡ ignores self.old key.now }
        ensures plays { result ≡ true → (seen : Seen) → Plays (key.now ∷ []) seen seen
            self.old self.new (Ok (refusal_line Ignored ∷ [])) }
        ensures turns { result ≡ true → (seen : Seen)
            → IfOver seen self.old.browser (λ of. TurnsTo key.now of self.old self.new) }
        ensures outside { result ≡ true → self.old.waiting ≡ None }
        ensures ready { result ≡ true → self.new.is_over ≡ false }
        ensures kept { result ≡ false → self.new ≡ self.old }
    {
        if !self.rests() {
            return false;
        }
        if !fits_nothing(&self.context, key) {
            return false;
        }
        let budget = self.context.budget();
        self.context.begin_key(budget);
        true
    }

    /// Plays a key, and gives the lines that it shows. In a dialog it answers this, if it can;
    /// outside one `Push`, `Inbox` and `Follow` are those of the inbox.
    ///
    /// # Errors
    /// `Store` where a page couldn't be fetched, and `NoMemory`; from then on `Ended`.
    pub fn feed<P: Pages>(
        &mut self,
        alloc: Global,
        key: &Key,
        pages: &mut P,
    ) -> Result<Lines, SessionFault>
        ensures plays { Plays (key.now ∷ []) (P.seen pages.old) (P.seen pages.new)
            self.old self.new result }
        ensures missed { IsErrOf result SessionFault.Store
            → IfOver (P.seen pages.new) self.old.browser (λ of.
            Fails (step_of of (key.now ∷ []) self.old).asked
            (P.seen pages.old) (P.seen pages.new)) }
        ensures shown { IfOk result (λ lines.
            IfOver (P.seen pages.new) self.old.browser (λ of.
            ShowsOn (key.now ∷ []) of self.old self.new lines)) }
        ensures turns { OnOk result (IfOver (P.seen pages.new) self.old.browser (λ of.
            TurnsTo key.now of self.old self.new)) }
    {
        if self.is_over() {
            return Err(SessionFault::Ended);
        }
        let standing = mem::replace(&mut self.standing, Standing::Over);
        let did = turn(
            &mut self.context,
            &mut self.inbox,
            alloc,
            standing,
            key,
            pages,
        )?;
        let (lines, standing) = after(alloc, did)?;
        self.standing = standing;
        Ok(lines)
    }

    /// Appends lines; where memory runs out, the session is over.
    fn keep_lines(&mut self, lines: &mut Lines, more: &Lines) -> Result<(), SessionFault>
        ensures kept { OnOk result (lines.new ≡ lines.old ++ more.now) }
        ensures same { OnOk result (self.new ≡ self.old) }
        ensures over { OnErr result (self.new.is_over ≡ true) }
        ensures wanting { IfErr result (λ fault. fault ≡ SessionFault.NoMemory) }
    {
        match lines.append(more) {
            Ok(()) => Ok(()),
            Err(NoMemory) => {
                self.standing = Standing::Over;
                Err(SessionFault::NoMemory)
            }
        }
    }

    /// Plays keys one after the other, and gives the lines that they show: those of all keys, or
    /// none. After a fault the session is over.
    ///
    /// # Errors
    /// Those of `feed`.
    pub fn play<P: Pages>(
        &mut self,
        alloc: Global,
        keys: &[Key],
        pages: &mut P,
    ) -> Result<Lines, SessionFault>
        ensures plays { Plays keys.now (P.seen pages.old) (P.seen pages.new)
            self.old self.new result }
        ensures missed { IsErrOf result SessionFault.Store
            → IfOver (P.seen pages.new) self.old.browser (λ of.
            MissedAt keys.now of self.old (P.seen pages.old) (P.seen pages.new)) }
        ensures shown { IfOk result (λ lines.
            IfOver (P.seen pages.new) self.old.browser (λ of.
            ShowsOn keys.now of self.old self.new lines)) }
    {
        if self.is_over() {
            return Err(SessionFault::Ended);
        }
        let mut lines = Lines::new(alloc);
        for key in keys {
            let more = self.feed(alloc, key, pages)?;
            self.keep_lines(&mut lines, &more)?;
        }
        Ok(lines)
    }

    /// Whether a script waits for the answer to a dialog. After a fault none does.
    pub fn in_dialog(&self) -> bool
        ensures waits { result ≡ is_some self.now.waiting }
        ensures over { self.now.is_over ≡ true → result ≡ false }
    {
        match &self.standing {
            Standing::Waits(_) => true,
            Standing::Rest | Standing::Over => false,
        }
    }
}
