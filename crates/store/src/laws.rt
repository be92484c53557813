//! What the store means, as theorems over its definitions.
ghost use Rattle.store.specs.Keeps.{Keeps, Tells, Changes, ReadsWhatWasWritten, Examples};

/// Whatever is done to the other sequences, a sequence keeps every phase; what is read of a sequence
/// are its phases; creating, erasing and writing change the sequence that they name as stated;
/// what was written is what is read.
pub fn store_laws()
    ensures keeps { Keeps }
    ensures tells { Tells }
    ensures changes { Changes }
    ensures written { ReadsWhatWasWritten }
    ensures examples { Examples }
{}
