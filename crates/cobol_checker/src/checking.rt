ghost use Rattle.std.specs.Prelude.{◌≡◌, ◌⊎◌, List, map, IfOk, IfErr, All};
ghost use Rattle.cob_base.specs.declared.line.Line.{Line};
ghost use Rattle.data_layout.specs.declared.row.Row.{Row};
ghost use Rattle.data_layout.specs.Rows.{sections, AreAllRows};
ghost use Rattle.data_names.specs.Items.{AreDataItems};
ghost use Rattle.data_names.specs.Parts.{screen_entries};
ghost use Rattle.data_names.specs.Seen.{seen_item};
ghost use Rattle.data_names.specs.Table.{IsTable, items_of};
ghost use Rattle.key_rules.specs.Descriptions.{AreDescriptions};
ghost use Rattle.entry_clauses.specs.SeenScreens.{seen_screen, AreKnownScreens};
ghost use Rattle.name_rules.specs.Faults.{IsBest};
ghost use Rattle.name_rules.specs.declared.fault.Fault.{Fault};
ghost use Rattle.procedure_rules.specs.Performed.{AreCycleLines};
ghost use Rattle.procedure_rules.specs.Faults.{program_faults};
ghost use Rattle.cobol_checker.specs.declared.fault.CheckFault.TheVariants as faults;
ghost use Rattle.cobol_checker.specs.Outcome.{IsInProfile, IsRefused};
ghost use Rattle.cobol_checker.specs.Judged.{IsFaultless, IsKept, IsJudged};
ghost use Rattle.data_layout.specs.Outcome.{IsLayoutOf};
ghost use Rattle.data_layout.specs.declared.fault.LayoutFault.{LayoutFault};
ghost use Rattle.cobol_checker.specs.Seen.{seen_checked};
ghost use Rattle.opening_storage.specs.Opening.{IsOpeningOf};
ghost use Rattle.screen_layout.specs.Outcome.{AreScreensOf};
ghost use Rattle.screen_layout.specs.Plans.{IsPlanOf};
ghost use Rattle.screen_layout.specs.declared.fault.ScreenFault.{ScreenFault};

use crate::CheckFault;
use crate::references::references_of;
use crate::shapes::shapes_of;
use cob_base::{ByteText, Front, Items, NoMemory, Program};
use data_layout::{Described, Layout, LayoutFault, Row, gather, lay_out};
use data_names::{
    AskedPairs, KnownItem, Names, Pairs, Table, facts_of, known_items, screen_entries,
};
use entry_clauses::{KnownScreen, screen_items};
use front_rules::note_front_faults;
use key_rules::Descriptions;
use name_rules::{Fault, Faults, least};
use opening_storage::opening;
use procedure_rules::note_procedure_faults;
use screen_layout::{ScreenFault, ScreenPlan, lay_screens};
use sharing_table::Shape;
use std::alloc::Global;

/// A program that keeps every rule, with its layout, the plans of its screens and the shapes of its files.
#[derive(Drop)]
pub struct Checked {
    program: Program,
    layout: Layout,
    screens: Items<ScreenPlan>,
    shapes: Items<Shape>,
}

impl Checked {
    /// The program.
    pub fn program(&self) -> &Program
        ensures { result.now ≡ self.now.program }
    {
        &self.program
    }

    /// The layout of its storage.
    pub fn layout(&self) -> &Layout
        ensures { result.now ≡ self.now.layout }
    {
        &self.layout
    }

    /// The plan of each screen, in the order of the entries of level 01.
    pub fn screens(&self) -> &[ScreenPlan]
        ensures { result.now ≡ self.now.screens }
    {
        self.screens.as_slice()
    }

    /// The shape of each file, in the order of the file control entries.
    pub fn shapes(&self) -> &[Shape]
        ensures { result.now ≡ self.now.shapes }
    {
        self.shapes.as_slice()
    }

    /// The bytes of storage before the first statement, as many as the layout has in all. The program is in the profile, as `check`
    /// gives it.
    pub fn opening(&self, alloc: Global) -> Result<ByteText, NoMemory>
        requires { IsInProfile (seen_checked self.now) }
        ensures { IfOk result (λ bytes. IsOpeningOf self.now.program.front self.now.layout bytes) }
    {
        opening(alloc, &self.program.front, &self.layout)
    }
}

/// What the judging of a program comes to.
enum Verdict {
    /// No condition fails, and these are the shapes of its files.
    Kept(Items<Shape>),
    /// Its least fault.
    Refused(Fault),
}

/// The least fault of a program with these items and screens.
fn least_fault(
    alloc: Global,
    program: &Program,
    table: &Table,
    known: &Descriptions,
    screens: &[KnownScreen],
) -> Result<Option<Fault>, NoMemory>
    requires table { IsTable table.now }
    requires items { AreDataItems program.now.front (items_of table.now) }
    requires known { AreDescriptions program.now.front (items_of table.now) known.now }
    requires screens { AreKnownScreens (screen_entries program.now.front) screens.now }
    ensures { IfOk result (λ best. (cycles : List Line) × AreCycleLines program.now.paragraphs cycles × IsBest (program_faults program.now (items_of table.now) (map seen_screen screens.now) cycles) best) }
{
    let mut faults = Faults {
        found: Vec::new(alloc),
    };
    note_front_faults(alloc, &mut faults, &program.front, table, known, screens)?;
    note_procedure_faults(alloc, &mut faults, program, table, known)?;
    Ok(least(faults.found.as_slice()))
}

/// Judges a program with these items and screens.
fn judge_all(
    alloc: Global,
    program: &Program,
    table: &Table,
    known: &Descriptions,
    screens: &[KnownScreen],
) -> Result<Verdict, NoMemory>
    requires table { IsTable table.now }
    requires items { AreDataItems program.now.front (items_of table.now) }
    requires known { AreDescriptions program.now.front (items_of table.now) known.now }
    requires screens { AreKnownScreens (screen_entries program.now.front) screens.now }
    ensures { IfOk result (λ verdict. IsJudged program.now verdict) }
{
    match least_fault(alloc, program, table, known, screens)? {
        Some(fault) => Ok(Verdict::Refused(fault)),
        None => Ok(Verdict::Kept(shapes_of(alloc, &program.front, known, table)?)),
    }
}

/// Judges a program with these items.
fn judge_table(alloc: Global, program: &Program, table: &Table) -> Result<Verdict, NoMemory>
    requires table { IsTable table.now }
    requires items { AreDataItems program.now.front (items_of table.now) }
    ensures { IfOk result (λ verdict. IsJudged program.now verdict) }
{
    let known = Descriptions::of(alloc, &program.front, table.items)?;
    let screens = screen_items(alloc, screen_entries(&program.front))?;
    judge_all(alloc, program, table, &known, screens.as_slice())
}

/// Judges a program with these items, whose rows these are.
fn judge_items(
    alloc: Global,
    program: &Program,
    items: &[KnownItem],
    rows: &[Row],
) -> Result<Verdict, NoMemory>
    requires items { AreDataItems program.now.front (map seen_item items.now) }
    requires rows { map (λ item. item.row) items.now ≡ rows.now }
    ensures { IfOk result (λ verdict. IsJudged program.now verdict) }
{
    let facts = facts_of(alloc, items, rows)?;
    let names = Names::of(alloc, items)?;
    let references = references_of(alloc, program)?;
    let asked = AskedPairs::of(alloc, &names, references.as_slice())?;
    let pairs = Pairs::of(alloc, items, facts.as_slice(), asked)?;
    let table = Table {
        items,
        facts: facts.as_slice(),
        names: &names,
        pairs: &pairs,
    };
    judge_table(alloc, program, &table)
}

/// Judges a program, whose rows and texts these are.
fn judge_rows(
    alloc: Global,
    program: &Program,
    rows: &[Row],
    texts: &[Described],
) -> Result<Verdict, NoMemory>
    requires { AreAllRows 0 (sections program.now.front) rows.now texts.now }
    ensures { IfOk result (λ verdict. IsJudged program.now verdict) }
{
    let items = known_items(alloc, &program.front, rows, texts)?;
    judge_items(alloc, program, items.as_slice(), rows)
}

/// Judges a program.
fn judge(alloc: Global, program: &Program) -> Result<Verdict, NoMemory>
    ensures { IfOk result (λ verdict. IsJudged program.now verdict) }
{
    let gathered = gather(alloc, &program.front)?;
    judge_rows(
        alloc,
        program,
        gathered.rows.as_slice(),
        gathered.texts.as_slice(),
    )
}

/// The layout of a front without faults.
fn layout_of(alloc: Global, front: &Front) -> Result<Layout, NoMemory>
    requires { IsFaultless front.now }
    ensures { IfOk result (λ layout. IsLayoutOf (sections front.now) layout) }
{
    match lay_out(alloc, front) {
        Ok(layout) => Ok(layout),
        Err(fault) => Err(no_memory(fault)),
    }
}

/// Of a front without faults this is the one fault.
fn no_memory(_fault: LayoutFault) -> NoMemory
    requires { _fault ≡ LayoutFault.NoMemory }
{
    NoMemory
}

/// The plans of the screens of a front without faults.
fn screens_of(alloc: Global, front: &Front, layout: &Layout) -> Result<Items<ScreenPlan>, NoMemory>
    requires faultless { IsFaultless front.now }
    requires laid_out { IsLayoutOf (sections front.now) layout.now }
    ensures plans { IfOk result (λ screens. AreScreensOf layout.now (screen_entries front.now) screens) }
    ensures of_layout { IfOk result (λ screens. All (IsPlanOf layout.now) screens) }
{
    match lay_screens(alloc, front, layout) {
        Ok(screens) => Ok(screens),
        Err(fault) => Err(no_memory_of_screens(fault)),
    }
}

/// Of the screens of a front without faults this is the one fault.
fn no_memory_of_screens(_fault: ScreenFault) -> NoMemory
    requires { _fault ≡ ScreenFault.NoMemory }
{
    NoMemory
}

/// A program that keeps every rule, with these shapes of its files.
fn with_layout(alloc: Global, program: Program, shapes: Items<Shape>) -> Result<Checked, NoMemory>
    requires { IsKept program shapes }
    ensures { IfOk result (λ checked. (checked.program ≡ program) × IsInProfile (seen_checked checked)) }
{
    let layout = layout_of(alloc, &program.front)?;
    let screens = screens_of(alloc, &program.front, &layout)?;
    Ok(Checked {
        program,
        layout,
        screens,
        shapes,
    })
}

/// Checks a program against the rules of the language. A program that keeps them all is given back with its layout, the
/// plans of its screens and the shapes of its files; else its least fault is told, by line, then by reason.
pub fn check(alloc: Global, program: Program) -> Result<Checked, CheckFault>
    ensures checked { IfOk result (λ checked. (checked.program ≡ program) × IsInProfile (seen_checked checked)) }
    ensures refused { IfErr result (λ fault. (fault ≡ faults.NoMemory) ⊎ ((least : Fault) × (fault ≡ faults.Reason least.line least.reason) × IsRefused program least)) }
{
    match judge(alloc, &program) {
        Err(NoMemory) => Err(CheckFault::NoMemory),
        Ok(Verdict::Refused(fault)) => Err(CheckFault::Reason {
            line: fault.line,
            reason: fault.reason,
        }),
        Ok(Verdict::Kept(shapes)) => match with_layout(alloc, program, shapes) {
            Ok(checked) => Ok(checked),
            Err(NoMemory) => Err(CheckFault::NoMemory),
        },
    }
}
