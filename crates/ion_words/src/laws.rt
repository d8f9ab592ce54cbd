//! Laws of what words ask for. Each stands on an empty function: its contract is the law.
ghost use Rattle.std.specs.Prelude.{◌≡◌, ◌^◌, [], ◌∷◌, ◌++◌, codes, Some, None, option_map};
ghost use Rattle.clap.specs.Words.{Text};
ghost use Rattle.ion_symtab.specs.declared.target.Target.TheVariants as target;
ghost use Rattle.ion_words.specs.Asked.{IsPlain, asked, check, show, convert, compare, input_once, number_in, usual};
ghost use Rattle.ion_words.specs.Lines.{words_in};

/// What some command lines ask for.
#[tactic(auto, unfolding(clap::proofs::OnLiterals::clap_on_literals))]
pub fn rows_asked()
    ensures no_words { asked [] ≡ Some (usual (show (codes "-"))) }
    ensures check_row { asked (words_in (codes "check a")) ≡ Some (usual (check (codes "a"))) }
    ensures show_row { asked (words_in (codes "show -")) ≡ Some (usual (show (codes "-"))) }
    ensures target_before { asked (words_in (codes "convert --to binary a")) ≡
        Some (usual (convert (codes "a") target.Binary)) }
    ensures target_behind { asked (words_in (codes "convert a --to=text")) ≡
        Some (usual (convert (codes "a") target.Text)) }
    ensures sides { asked (words_in (codes "compare a b")) ≡
        Some (usual (compare (codes "a") (codes "b"))) }
    ensures options { asked (words_in (codes "check --catalog c a --depth=3 --item 9")) ≡
        Some (record { job = check (codes "a"); catalog = Some (codes "c"); depth = 3; item = 9 }) }
    ensures behind_hyphens { asked (words_in (codes "check -- --depth")) ≡
        Some (usual (check (codes "--depth"))) }
    ensures greatest { asked (words_in (codes "check a --depth=128 --item=1073741824")) ≡
        Some (record (usual (check (codes "a"))) { depth = 128; item = 2 ^ 30 }) }
    ensures least { asked (words_in (codes "check a --depth 1 --item 1")) ≡
        Some (record (usual (check (codes "a"))) { depth = 1; item = 1 }) }
    ensures spelled { asked (words_in (codes "check a --depth=+3 --item=007")) ≡
        Some (record (usual (check (codes "a"))) { depth = 3; item = 7 }) }
{}

/// Some command lines that ask for nothing.
#[tactic(auto, unfolding(clap::proofs::OnLiterals::clap_on_literals))]
pub fn rows_refused()
    ensures no_command { asked (words_in (codes "frob")) ≡ None }
    ensures no_name { asked (words_in (codes "check")) ≡ None }
    ensures one_name { asked (words_in (codes "compare a")) ≡ None }
    ensures names { asked (words_in (codes "check a b")) ≡ None }
    ensures no_target { asked (words_in (codes "convert a")) ≡ None }
    ensures other_target { asked (words_in (codes "convert a --to=json")) ≡ None }
    ensures target_of_check { asked (words_in (codes "check a --to=text")) ≡ None }
    ensures unknown_option { asked (words_in (codes "check --deep a")) ≡ None }
    ensures option_twice { asked (words_in (codes "check --depth=3 --depth=3 a")) ≡ None }
    ensures option_before { asked (words_in (codes "--depth=3 check a")) ≡ None }
    ensures depth_0 { asked (words_in (codes "check a --depth=0")) ≡ None }
    ensures depth_129 { asked (words_in (codes "check a --depth=129")) ≡ None }
    ensures depth_below_0 { asked (words_in (codes "check a --depth=-3")) ≡ None }
    ensures no_depth { asked (words_in (codes "check a --depth")) ≡ None }
    ensures no_number { asked (words_in (codes "check a --depth=3x")) ≡ None }
    ensures item_0 { asked (words_in (codes "check a --item=0")) ≡ None }
    ensures item_beyond { asked (words_in (codes "check a --item=1073741825")) ≡ None }
    ensures input_twice { asked (words_in (codes "compare - -")) ≡ None }
    ensures input_and_catalog { asked (words_in (codes "check - --catalog=-")) ≡ None }
    ensures help { asked (words_in (codes "--help")) ≡ None }
    ensures help_of_check { asked (words_in (codes "check --help")) ≡ None }
{}

/// A name that doesn't begin with a hyphen stands in its place as it is.
pub fn plain_names()
    ensures check { (name : Text) → IsPlain name →
        asked (codes "check" ∷ name ∷ []) ≡ Some (usual (check name)) }
    ensures show { (name : Text) → IsPlain name →
        asked (codes "show" ∷ name ∷ []) ≡ Some (usual (show name)) }
    ensures text { (name : Text) → IsPlain name →
        asked (codes "convert" ∷ name ∷ codes "--to" ∷ codes "text" ∷ []) ≡
        Some (usual (convert name target.Text)) }
    ensures binary { (name : Text) → IsPlain name →
        asked (codes "convert" ∷ name ∷ codes "--to" ∷ codes "binary" ∷ []) ≡
        Some (usual (convert name target.Binary)) }
    ensures compare { (left right : Text) → IsPlain left → IsPlain right →
        asked (codes "compare" ∷ left ∷ right ∷ []) ≡ Some (usual (compare left right)) }
    ensures catalog { (name catalog : Text) → IsPlain name → IsPlain catalog →
        asked (codes "check" ∷ name ∷ codes "--catalog" ∷ catalog ∷ []) ≡
        Some (record (usual (check name)) { catalog = Some catalog }) }
{}

/// Behind `--` any word is a name.
#[tactic(auto, unfolding(clap::proofs::OnLiterals::clap_on_literals))]
pub fn names_behind_hyphens()
    ensures check { (name : Text) →
        asked (codes "check" ∷ codes "--" ∷ name ∷ []) ≡ Some (usual (check name)) }
    ensures compare { (left right : Text) →
        asked (codes "compare" ∷ codes "--" ∷ left ∷ right ∷ []) ≡
        input_once (usual (compare left right)) }
{}

/// The limits are the numbers that the texts of their options write, where they are in their
/// ranges; else nothing is asked for.
pub fn numbers()
    ensures depth { (text : Text) →
        asked (codes "check" ∷ codes "a" ∷ (codes "--depth=" ++ text) ∷ []) ≡
        option_map (λ depth. record (usual (check (codes "a"))) { depth = depth })
        (number_in 128 text) }
    ensures item { (text : Text) →
        asked (codes "check" ∷ codes "a" ∷ (codes "--item=" ++ text) ∷ []) ≡
        option_map (λ item. record (usual (check (codes "a"))) { item = item })
        (number_in (2 ^ 30) text) }
{}
