ghost use Rattle.std.specs.Prelude.{ℕ, ◌≡◌, ◌↔◌, List, [], ◌∷◌, All, Some, true, length, slice_get};
ghost use Rattle.po_straight.specs.declared.definition.Definition.{Definition as DefinitionOf};
ghost use Rattle.po_straight.specs.Definitions.{IsFile};
ghost use Rattle.po_ir.specs.declared.project.Function.{Function as FunctionOf};
ghost use Rattle.po_ir.specs.declared.project.Project.{Project as ProjectOf};
ghost use Rattle.po_core.specs.declared.report.Report.{Report as ReportOf};
ghost use Rattle.po_pred.specs.declared.pred.Pred.{Pred as PredOf};
ghost use Rattle.po_app.specs.declared.rule.Rule.{Rule as RuleOf};
ghost use Rattle.po_app.specs.declared.status.Status.{Status as StatusOf};
ghost use Rattle.po_app.specs.Predicates.{HoldsForAll, HaveNumbers};
ghost use Rattle.po_app.specs.Discharge.{is_closed};
ghost use Rattle.po_app.specs.Lowering.{IsProject};
ghost use Rattle.po_app.specs.Outcome.{IsReported};
ghost use Rattle.po_app.specs.Closed.{IsReport, IsClosedReport};
ghost use Rattle.po_app.specs.Meaning.{Value, State, start_frame, Run, GoesOn};
ghost use Rattle.po_app.specs.Sound.{IsInt, Meets, Starts, Sound};

/// A predicate whose places have numbers is closed by its ranges exactly where it holds for all of them.
pub fn closed_where_all_hold()
    ensures { (q : PredOf) → HaveNumbers q → (is_closed q ≡ true) ↔ HoldsForAll q }
{}

/// A report of a served file that is closed under the rules is sound, whether or not it is the least: in every run of
/// any number of steps, from any call whose arguments meet what the report assumes, the obligation that is violated
/// first is listed as open. A closed or a delegated one never fails first.
pub fn closed_report_is_sound()
    ensures { (name bytes : List ℕ) (ds : List DefinitionOf) (p : ProjectOf) (r : ReportOf PredOf RuleOf) → IsFile ds bytes → IsProject name ds p → IsClosedReport p r → Sound p r }
{}

/// The least report is closed under the rules.
pub fn least_report_is_closed()
    ensures { (p : ProjectOf) (r : ReportOf PredOf RuleOf) → IsReport p r → IsClosedReport p r }
{}

/// The report of a served file is sound.
pub fn report_is_sound()
    ensures { (name bytes : List ℕ) (ds : List DefinitionOf) (p : ProjectOf) (r : ReportOf PredOf RuleOf) → IsFile ds bytes → IsProject name ds p → IsReport p r → Sound p r }
{}

/// No run of a served file gets stuck, whatever the report lists: wherever it stands an obligation is violated, a next
/// state follows, or the run ends by a return for which no frame waits.
pub fn runs_go_on()
    ensures { (name bytes : List ℕ) (ds : List DefinitionOf) (p : ProjectOf) (r : ReportOf PredOf RuleOf) (n : ℕ) (s u : State) → IsFile ds bytes → IsProject name ds p → Starts p r s → Run p r n s u → GoesOn p r u }
{}

/// Along every run the frame that runs, and each that waits for it, meets what a closed report assumes of its function.
pub fn entries_meet()
    ensures { (name bytes : List ℕ) (ds : List DefinitionOf) (p : ProjectOf) (r : ReportOf PredOf RuleOf) (n : ℕ) (s u : State) → IsFile ds bytes → IsProject name ds p → IsClosedReport p r → Starts p r s → Run p r n s u → All (Meets r) (u.top ∷ u.rest) }
{}

/// Every function can be started with every choice of ints, one for each parameter, that meets what the report assumes.
pub fn every_call_starts()
    ensures { (p : ProjectOf) (r : ReportOf PredOf RuleOf) (f : ℕ) (g : FunctionOf) (args : List Value) → slice_get p.functions f ≡ Some g → length args ≡ g.graph.params → All IsInt args → Meets r (start_frame f g args) → Starts p r (record { top = start_frame f g args; rest = [] }) }
{}

/// Definitions have one report: its text and its status are a function of them and of the file's name.
pub fn report_is_one()
    ensures { (name : List ℕ) (ds : List DefinitionOf) (s t : StatusOf) (text other : List ℕ) → IsReported name ds s text → IsReported name ds t other → (s ≡ t) × (text ≡ other) }
{}
