//! Agreement near a clearance, and what edits do to it.
ghost use Rattle.clr_rules.specs.laws.Agreement.{AgreeingRegistersMarkAlike, AgreementGoesBothWays};
ghost use Rattle.clr_rules.specs.laws.Agreement.{AgreementIsHandedOn, AnEditOfOthersKeepsAgreement};
ghost use Rattle.clr_rules.specs.laws.Agreement.{EachAgreesWithItself, EditsChangeWhatTheyConcern};
ghost use Rattle.clr_rules.specs.laws.Agreement.{EditsOfOthersKeepAgreement, OthersChangeByMarks};
ghost use Rattle.clr_rules.specs.laws.Agreement.{SameEditsKeepAgreement, SameMarksKeepAgreement};

/// Agreement is reflexive, symmetric and transitive.
pub fn agreement_is_an_equivalence()
    ensures itself { EachAgreesWithItself }
    ensures back { AgreementGoesBothWays }
    ensures on { AgreementIsHandedOn }
{}

/// Edits change what is near a clearance exactly by those of them that concern it.
pub fn edits_change_what_they_concern()
    ensures { EditsChangeWhatTheyConcern }
{}

/// Edits that are not about a clearance change what is near it exactly by their marks.
pub fn others_change_by_marks()
    ensures { OthersChangeByMarks }
{}

/// An edit that leaves a clearance alone keeps agreement, and so does a list of such edits.
pub fn edits_of_others_keep_agreement()
    ensures one { AnEditOfOthersKeepsAgreement }
    ensures all { EditsOfOthersKeepAgreement }
{}

/// Registers that agree take the same edits for marks.
pub fn agreeing_registers_mark_alike()
    ensures { AgreeingRegistersMarkAlike }
{}

/// Registers that agree still do after edits of others that leave the same marks in both.
pub fn same_marks_keep_agreement()
    ensures { SameMarksKeepAgreement }
{}

/// Registers that agree still do after the same edits, whatever these are about.
pub fn same_edits_keep_agreement()
    ensures { SameEditsKeepAgreement }
{}
