//! Laws of what a client signs: each stands for all values, and makes no call.

#![tactic(auto)]

ghost use Rattle.std.specs.Prelude.{◌≡◌, ◌↔◌, ◌++◌, ℕ, List};
ghost use Rattle.sshkey_model.specs.Grammar.{IsGrammar, Spells};
ghost use Rattle.sshkey_model.specs.Laws.{DetermineValues, ReadBack};
ghost use Rattle.sshkey_model.specs.Parts.{Any};
ghost use Rattle.sshkey_userauth.specs.RequestFormats.{SpellsUserauthRequest, userauth_format};
ghost use Rattle.sshkey_userauth.specs.Requests.{UserauthRequest, userauth_request};

/// Requests are read exactly where they are spelled.
pub fn exact_userauth_request()
    ensures { IsGrammar SpellsUserauthRequest userauth_format.read }
{}

/// The term of requests spells exactly what RFC 4252, section 7, and OpenSSH's PROTOCOL lay out.
pub fn spelled_userauth_request()
    ensures { (r : UserauthRequest) (b : List ℕ) → SpellsUserauthRequest r b
        ↔ Spells Any userauth_request r b }
{}

/// The signed bytes determine each field: those of two requests are equal exactly if these are.
pub fn normal_userauth_requests()
    ensures { DetermineValues Any userauth_request }
{}

/// What is written of a request is read as that request.
pub fn read_back_userauth_request()
    ensures { ReadBack Any userauth_request userauth_format.read }
{}

/// No spelling of a request begins another: what follows it does not matter, and it is that of one
/// request.
pub fn one_userauth_request()
    ensures { (p q : UserauthRequest) (a b r s : List ℕ) → SpellsUserauthRequest p a →
        SpellsUserauthRequest q b → a ++ r ≡ b ++ s → (p ≡ q) × (a ≡ b) × (r ≡ s) }
{}
