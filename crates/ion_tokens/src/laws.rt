//! What the definitions that this crate's contracts name have to do with the specification. A law
//! is called for its clause alone.
ghost use Rattle.std.specs.Prelude.{◌≡◌, ◌↔◌, ◌+◌, ◌<◌, ◌^◌, ◌++◌, ◌∷◌, ℕ, List, [], Bool, Some, Ok, Result, length, take, false};
ghost use Rattle.std.specs.List.{flat_map};
ghost use Rattle.ion_tokens.specs.Names.{AreOctets, Begun, Content, Continues, IsBody, IsFound, IsPassed, IsTraced, Known, Lexes, LooksIn, Passes, Place, Placed, Places, Reason, Rest, RestsBehind, Scanned, ShowsBegun, TokenKind, Told, base64_of, blob_of, feed, follow, left_after, lexeme_at, over, over_pieces, past_blank, past_token, resting, run, said, start_of, told_there};
ghost use Rattle.ion_tokens.specs.laws.Tokens.{OneBegun, TellsRightly, ToldAll, TracesTokens};
ghost use Rattle.ion_tokens.specs.laws.TokensTraced.{TokensTraced};

/// It doesn't matter how octets are cut: pieces lead to the tokens, totals and refusal to which the
/// whole leads; and what comes of octets in one place is what comes of the second part behind the
/// first, unless a token or a refusal came of the first.
pub fn any_cutting()
    ensures whole { (places : Places) (pieces : List (List ℕ)) (told : List Told) (s : Known) →
        over_pieces places pieces told s ≡ over places (flat_map (λ piece. piece) pieces) told s }
    ensures token { (place : Place) (first second : List ℕ) (s : Known) →
        run place (first ++ second) s ≡ follow (run place first s) (λ t. run place second t) }
{}

/// Scanners that used the same octets, and left none that must come next, told the same tokens with
/// the same totals and know the same, however the octets were cut.
pub fn one_trace()
    ensures { (places : Places) (a b : Known) (octets : List ℕ) (told others : List Told) →
        IsTraced places a octets told [] → IsTraced places b octets others [] →
        (told ≡ others) × (a ≡ b) }
{}

/// The octets of a token say one thing at most.
pub fn one_body()
    ensures { (kind : TokenKind) (octets : List ℕ) (a b : Result Content Reason) →
        IsBody kind octets a → IsBody kind octets b → a ≡ b }
{}

/// The octets of a blob are those whose base64 its text is (RFC 4648, section 4).
pub fn blobs()
    ensures { (text octets : List ℕ) → AreOctets text → AreOctets octets →
        (blob_of text ≡ Some octets) ↔ (text ≡ base64_of octets) }
{}

/// The octets used begin with the tokens told, each at its span, with blanks alone between them,
/// however they go on.
pub fn tokens_told()
    ensures { TellsRightly }
{}

/// Where the trace of octets ends well, the octets are the tokens that it tells, with blanks
/// between, each in the place to which those before it lead, at its span and saying what it says.
/// The trace of octets that are such tokens ends well and tells just these; or their last is a word
/// directly behind an operator, and the end of the octets comes before it shows whether that is a
/// word.
pub fn trace_is_exact()
    ensures tells { TracesTokens }
    ensures told { TokensTraced }
{}

/// Where a document goes on with one octet more, and a token has begun then, it begins where
/// `since` says before that octet.
pub fn begins_since()
    ensures { (p : Place) (s : Known) (u : List ℕ) (ts : List Placed) → Scanned p s u ts [] →
        (o : ℕ) (b : Begun) → ShowsBegun p (u ++ o ∷ []) ts (Some b) →
        (rest : List ℕ) (others : List Placed) → LooksIn p others →
        Lexes false 0 ((u ++ o ∷ []) ++ rest) (ts ++ others) →
        b.start ≡ start_of s.mode s.start s.used }
{}

/// None but the tokens told has ended whatever octets follow.
pub fn told_all()
    ensures { ToldAll }
{}

/// What `begun` shows is determined by the octets: where a document goes on with them, no other
/// answer meets its clause.
pub fn one_begun()
    ensures { OneBegun }
{}

/// What is promised of a scanner that rests, and the trace in which it stands, go on where `move_to`
/// sets it behind octets that were found: behind a blank, with comments or without, the same tokens
/// are told, and behind a token that one, too. An octet that showed the token's end and isn't part
/// of it must come next.
pub fn moved()
    ensures blank { (p : Place) (r : Rest) (u octets : List ℕ) (ts : List Placed) (ahead : List ℕ)
        (n : ℕ) →
        Scanned p (resting r) u ts ahead → Continues (take n octets) ahead → IsPassed octets n →
        Scanned p (resting (past_blank r n)) (u ++ take n octets) ts [] }
    ensures token { (p q : Place) (r : Rest) (u octets : List ℕ) (ts : List Placed) (ahead : List ℕ)
        (kind : TokenKind) (kept : List ℕ) (n : ℕ) (left : Bool) →
        Scanned p (resting r) u ts ahead → Continues octets ahead →
        IsFound p r octets kind kept n left → Passes kind kept →
        Scanned q (resting (past_token p r kind n)) (u ++ take n octets)
        (ts ++ record { place = p; lexeme = lexeme_at r kind kept n } ∷ [])
        (left_after left n octets) }
    ensures comments { (p : Place) (r behind : Rest) (u octets : List ℕ) (ts : List Placed)
        (ahead : List ℕ) (n : ℕ) →
        Scanned p (resting r) u ts ahead → Continues (take n octets) ahead →
        RestsBehind octets n r behind → Scanned p (resting behind) (u ++ take n octets) ts [] }
    ensures blank_traced { (places : Places) (r : Rest) (u octets : List ℕ) (told : List Told)
        (ahead : List ℕ) (n : ℕ) →
        IsTraced places (resting r) u told ahead → Continues (take n octets) ahead →
        IsPassed octets n →
        IsTraced places (resting (past_blank r n)) (u ++ take n octets) told [] }
    ensures comments_traced { (places : Places) (r behind : Rest) (u octets : List ℕ)
        (told : List Told) (ahead : List ℕ) (n : ℕ) →
        IsTraced places (resting r) u told ahead → Continues (take n octets) ahead →
        RestsBehind octets n r behind →
        IsTraced places (resting behind) (u ++ take n octets) told [] }
    ensures token_traced { (places : Places) (r : Rest) (u octets : List ℕ) (told : List Told)
        (ahead : List ℕ) (kind : TokenKind) (kept : List ℕ) (n : ℕ) (left : Bool) (c : Content) →
        IsTraced places (resting r) u told ahead → Continues octets ahead →
        IsFound (places told) r octets kind kept n left → said kind kept ≡ Ok c →
        IsTraced places (resting (past_token (places told) r kind n)) (u ++ take n octets)
        (told ++ told_there r n c ∷ []) (left_after left n octets) }
{}
