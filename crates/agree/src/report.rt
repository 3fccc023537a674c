// What is printed of a chart and of the passes that should knit it.
use crate::parts::{course_of, quarters};
use compare::{Comparison, Holder};
use grid::{BarePlace, Cell, Place};
use lists::{Chart, PassList};
use pattern::Bank;
use std::io;

// The chart and the passes, and the workspace in which they are compared.
#[derive(Clone, Copy)]
pub struct Report<'a> {
    pub compared: Comparison<'a, Chart<'a>, PassList<'a>>,
    pub workspace: Cell,
}

// Prints the bound of a bank's first leaf.
fn print_bound<B: Bank>(rt: &impl Print, name: &str, bank: &B) -> io::Result<()> {
    match bank.bound(0) {
        Some(cell) => println!(rt; "bound of the {name}: {cell}"),
        None => println!(rt; "bound of the {name}: none"),
    }
}

impl Report<'_> {
    // Prints the workspace, then the chart and the passes as a whole, then each course and the totals.
    pub fn print(&self, rt: &impl Print) -> io::Result<()> {
        self.print_workspace(rt)?;
        print_bound(rt, "chart", self.compared.first)?;
        print_bound(rt, "passes", self.compared.second)?;
        self.print_quarters(rt)?;
        self.print_courses(rt)?;
        self.print_totals(rt)
    }

    // Prints the ends and the sizes of the workspace.
    fn print_workspace(&self, rt: &impl Print) -> io::Result<()> {
        let workspace = self.workspace;
        println!(rt; "workspace: {workspace}")?;
        let places = workspace.places();
        let halvings = workspace.halvings();
        println!(rt; "{places} places, to be halved {halvings} times at most")
    }

    // Prints how the two lie to each quarter of the workspace.
    fn print_quarters(&self, rt: &impl Print) -> io::Result<()> {
        let Some((lower, upper)) = quarters(&self.workspace) else {
            return println!(rt; "the workspace has no quarters");
        };
        for quarter in [lower.0, lower.1, upper.0, upper.1] {
            let chart = self.compared.first.relation(0, quarter);
            let passes = self.compared.second.relation(0, quarter);
            println!(rt; "quarter of {quarter}: chart {chart}, passes {passes}")?;
        }
        Ok(())
    }

    // Prints the courses of the workspace, one after the other.
    fn print_courses(&self, rt: &impl Print) -> io::Result<()> {
        for course in self.workspace.low().course()..=self.workspace.high().course() {
            if let Some(cell) = course_of(&self.workspace, course) {
                self.print_course(rt, &cell)?;
            }
        }
        Ok(())
    }

    // Prints whether the two agree in a course, and if not, the places where they differ.
    fn print_course(&self, rt: &impl Print, cell: &Cell) -> io::Result<()> {
        let course = cell.low().course();
        if self.compared.agrees(*cell) {
            return println!(rt; "course {course}: agrees");
        }
        println!(rt; "course {course}: differs")?;
        for needle in cell.low().needle()..=cell.high().needle() {
            self.print_needle(rt, cell, needle)?;
        }
        Ok(())
    }

    // Prints the places of one needle of a course where the two differ, by rising track.
    fn print_needle(&self, rt: &impl Print, cell: &Cell, needle: u16) -> io::Result<()> {
        for track in cell.low().track()..=cell.high().track() {
            let bare = BarePlace {
                needle,
                course: cell.low().course(),
                track,
            };
            if let Ok(place) = Place::new(bare) {
                self.print_place(rt, place)?;
            }
        }
        Ok(())
    }

    // Prints who has the stitch at a place, if only one of the two has it.
    fn print_place(&self, rt: &impl Print, place: Place) -> io::Result<()> {
        let needle = place.needle();
        let track = place.track();
        if self.compared.is_held_by(place, Holder::OnlyFirst) {
            println!(rt; "  needle {needle}, track {track}: only the chart has a stitch")?;
        }
        if self.compared.is_held_by(place, Holder::OnlySecond) {
            println!(rt; "  needle {needle}, track {track}: only the passes have a stitch")?;
        }
        Ok(())
    }

    // Prints how many stitches the two have in common, how many only one of them has, and whether they agree.
    fn print_totals(&self, rt: &impl Print) -> io::Result<()> {
        let both = self.compared.count(self.workspace, Holder::Both);
        let chart_only = self.compared.count(self.workspace, Holder::OnlyFirst);
        let passes_only = self.compared.count(self.workspace, Holder::OnlySecond);
        println!(rt; "stitches in both: {both}")?;
        println!(rt; "only in the chart: {chart_only}")?;
        println!(rt; "only in the passes: {passes_only}")?;
        if self.compared.agrees(self.workspace) {
            println!(rt; "chart and passes agree")
        } else {
            println!(rt; "chart and passes differ")
        }
    }
}
