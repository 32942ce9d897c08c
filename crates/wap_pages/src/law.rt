//! What the judging of pages means.
ghost use Rattle.std.specs.Prelude.{◌≡◌, ◌≢◌, ◌<◌, ◌^◌, ◌↔◌, ◌⊎◌, ℕ, true, List, [], length};
ghost use Rattle.wap_base.specs.Contents.{Contents, names_of, page_named};
ghost use Rattle.wap_base.specs.Texts.{AreDistinct};
ghost use Rattle.wap_devices.specs.Stores.{Answers, Held, Told, Agrees};
ghost use Rattle.wap_tokens.specs.declared.markup.deck.Deck.{Deck};
ghost use Rattle.wap_unit.specs.declared.unit.Unit.{Unit};
ghost use Rattle.wap_grammar.specs.declared.program.program.Program.{Program};
ghost use Rattle.wap_world.specs.site.Pages.{page_of, AreSitePages};
ghost use Rattle.wap_world.specs.declared.site.page.Page.TheVariants as page;
ghost use Rattle.wap_pages.specs.declared.fault.PageFault.{PageFault};
ghost use Rattle.wap_pages.specs.Judged.{page_of_bytes, judged, page_where, AreBytes};
ghost use Rattle.wap_pages.specs.Judged.{IsDeckPage, IsUnitPage, IsSourcePage, IsScriptPage};
ghost use Rattle.wap_pages.specs.Judged.{IsTextPage, Refuses, may_differ};
ghost use Rattle.wap_pages.specs.Histories.{AnswersOneWay};

/// A law of `judged`, which does nothing when it is called. A name's page is that of its bytes, and
/// missing where it has none. It is a deck where the bytes are a document that means this deck, and
/// it is good; it is a script where the bytes are this unit, and it may be run, or a source that is
/// compiled to it; it is a text where the bytes are this text; and it is refused where there is
/// none of these. Where no name of the store stands twice, they are pages that a site may have.
pub fn pages_are_judged()
    ensures pages { (name : List ℕ) (contents : Contents)
        → page_of name (judged contents) ≡ page_where name (page_named name contents) }
    ensures deck { (name bytes : List ℕ) (deck : Deck)
        → (page_of_bytes name bytes ≡ page.Deck deck) ↔ IsDeckPage name bytes deck }
    ensures script { (name bytes : List ℕ) (unit : Unit) → AreBytes bytes
        → (page_of_bytes name bytes ≡ page.Script unit) ↔ IsScriptPage name bytes unit }
    ensures words { (name bytes text : List ℕ)
        → (page_of_bytes name bytes ≡ page.Words text) ↔ IsTextPage name bytes text }
    ensures refused { (name bytes : List ℕ) → AreBytes bytes
        → (page_of_bytes name bytes ≡ page.Refused)
        ↔ (((deck : Deck) → ¬ IsDeckPage name bytes deck)
        × ((unit : Unit) → ¬ IsUnitPage name bytes unit)
        × ((p : Program) → ¬ IsSourcePage name bytes p)
        × ((text : List ℕ) → ¬ IsTextPage name bytes text)) }
    ensures found { (name bytes : List ℕ) → page_of_bytes name bytes ≢ page.Missing }
    ensures site { (contents : Contents) → AreDistinct (names_of contents)
        → AreSitePages (judged contents) }
{}

/// A law of the faults for which pages are refused: a page that is refused has one, and it has one
/// alone, unless it is a unit in which any of several places may be named.
pub fn refused_pages_have_faults()
    ensures some { (name bytes : List ℕ) → AreBytes bytes → length bytes < 2 ^ 31
        → (page_of_bytes name bytes ≡ page.Refused)
        ↔ ((fault : PageFault) × Refuses name bytes fault) }
    ensures one { (name bytes : List ℕ) (fault other : PageFault) → Refuses name bytes fault
        → Refuses name bytes other
        → (fault ≡ other) ⊎ ((may_differ fault ≡ true) × (may_differ other ≡ true)) }
{}

/// A law of the pages that a store may hold by what is known of it, of which contracts speak. A
/// store that tells what it holds answer by answer may hold some pages, if it answered each name one
/// way: those that were found, one of a name. One that holds its pages may hold these alone, in
/// which no name stands twice.
pub fn answers_of_one_way_have_pages()
    ensures told { (answers : Answers) → AnswersOneWay answers
        → (contents : Contents) × Agrees (Told answers []) contents }
    ensures held { (held pages : Contents)
        → Agrees (Held held) pages ↔ ((pages ≡ held) × AreDistinct (names_of pages)) }
{}
