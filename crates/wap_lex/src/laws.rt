//! What holds of the tokens of sources. The functions here do nothing, and carry the laws alone.
ghost use Rattle.std.specs.Prelude.{◌≡◌, ℕ, List};
ghost use Rattle.wap_lex.specs.declared.token.Token.{Token};
ghost use Rattle.wap_lex.specs.declared.fault.LexFault.{LexFault};
ghost use Rattle.wap_lex.specs.Tokens.{AreTokens, IsRefused};

/// The tokens of a source are one list.
pub fn tokens_are_one_list()
    ensures { (src : List ℕ) (tokens others : List Token) →
        AreTokens src tokens → AreTokens src others → tokens ≡ others }
{}

/// A source that has tokens has no fault, and one without them has one first fault.
pub fn faults_have_no_tokens()
    ensures apart { (src : List ℕ) (tokens : List Token) (fault : LexFault) →
        AreTokens src tokens → IsRefused src fault → ⊥ }
    ensures one { (src : List ℕ) (fault other : LexFault) →
        IsRefused src fault → IsRefused src other → fault ≡ other }
{}
