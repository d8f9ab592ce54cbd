//! Reasons by their numbers.
ghost use Rattle.std.specs.Prelude.{◌≡◌, ◌↔◌, ◌≤◌, IfSome, IsSome};
ghost use Rattle.ion_memory.specs.Names.{reason_number};

use ion_model::Reason;

/// The reason of this number; `None` exactly where it isn't in 1 to 22.
pub fn reason_of_number(number: u32) -> Option<Reason>
    ensures some { IfSome result (λ reason. reason_number reason ≡ number) }
    ensures none { IsSome result ↔ ((1 ≤ number) × (number ≤ 22)) }
{
    let reason = match number {
        1 => Reason::Memory,
        2 => Reason::Incomplete,
        3 => Reason::TooLarge,
        4 => Reason::Malformed,
        5 => Reason::Float,
        6 => Reason::DuplicateTable,
        7 => Reason::BadTable,
        8 => Reason::SymbolRange,
        9 => Reason::ImportGap,
        10 => Reason::MissingImport,
        11 => Reason::RepeatedField,
        12 => Reason::TableTooLarge,
        13 => Reason::NullTable,
        14 => Reason::BadEscape,
        15 => Reason::BadUtf8,
        16 => Reason::BadBase64,
        17 => Reason::Ambiguous,
        18 => Reason::Unexpected,
        19 => Reason::Depth,
        20 => Reason::ItemTooLong,
        21 => Reason::Version,
        22 => Reason::KeywordAsName,
        _ => return None,
    };
    Some(reason)
}
