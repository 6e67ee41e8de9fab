// Laws of typing: each tree has one typing at most.
ghost use Rattle.po_typed.specs.Founded.{DeclarationsKeepFounded, DefinitionsKeepFounded, FirstIsFounded, ShownIsWellFounded};
ghost use Rattle.po_typed.specs.Laws.{OneAssignment, OneDefinition, OneFile, OneInitialising, OneNamedType, OneOperand, OnePassing, OneRun, OneSpecified, OneTyping, OneValue};

use po_types::{format_is_one, layout_is_one};

/// An expression has one type at most, whatever it is converted to, and for each conversion one list of the types and conversions
/// of its expressions. It does nothing.
pub fn expression_typing_is_one()
    ensures { OneTyping }
{
    format_is_one();
}

/// The value of an expression has one type at most, and one list of pairs for each conversion. It does nothing.
pub fn operand_typing_is_one()
    ensures { OneOperand }
{
    format_is_one();
}

/// What is assigned to an object of a type has one list of pairs at most. It does nothing.
pub fn assignment_typing_is_one()
    ensures { OneAssignment }
{
    format_is_one();
}

/// The arguments of a call have one list of pairs at most. It does nothing.
pub fn argument_typing_is_one()
    ensures { OnePassing }
{
    format_is_one();
}

/// A type name names one type at most. It does nothing.
pub fn named_type_is_one()
    ensures { OneNamedType }
{
    format_is_one();
}

/// An integer constant expression has one type and one value at most. It does nothing.
pub fn constant_value_is_one()
    ensures { OneValue }
{
    format_is_one();
}

/// An initialiser gives an object of a type one type at most, the type with its size, and has one list of pairs. It does nothing.
pub fn initialiser_typing_is_one()
    ensures { OneInitialising }
{
    format_is_one();
}

/// Specifiers say one type at most, are const or not, and declare the same. It does nothing.
pub fn specified_type_is_one()
    ensures { OneSpecified }
{
    format_is_one();
    layout_is_one();
}

/// A declaration at file level leaves one file at most behind it: what is in force, the objects and what is initialised. It does nothing.
pub fn declaration_has_one_environment()
    ensures { OneFile }
{
    format_is_one();
    layout_is_one();
}

/// A statement has one list of pairs at most, and one list of the cases that stand directly in a switch's block. It does nothing.
pub fn statement_typing_is_one()
    ensures { OneRun }
{
    format_is_one();
}

/// A definition has one typing at most. It does nothing.
pub fn definition_has_one_typing()
    ensures { OneDefinition }
{
    format_is_one();
    layout_is_one();
}

/// Declarations keep that types name structs that are there, and that the members of a struct without a tag name only structs that were
/// declared before its body ended. It does nothing.
pub fn declarations_keep_founded()
    ensures { DeclarationsKeepFounded }
{}

/// So do definitions. It does nothing.
pub fn definitions_keep_founded()
    ensures { DefinitionsKeepFounded }
{}

/// Before the first piece of a file what is in force is founded. It does nothing.
pub fn first_context_is_founded()
    ensures { FirstIsFounded }
{}

/// So each environment that declarations make is well founded, and each of its types can be spelled. It does nothing.
pub fn shown_environment_is_well_founded()
    ensures { ShownIsWellFounded }
{}
