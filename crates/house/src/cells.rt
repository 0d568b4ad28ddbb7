// Cells and facts, by the sizes alone. Any sizes will do: none of this needs a house that was examined.
ghost use Rattle.std.specs.Prelude.{◌≡◌, ◌+◌, ◌*◌, nat_le, nat_lt};
ghost use Rattle.house.specs.Cells.{components, moves, inside, cell_count, fact_inside, Placed};

use super::{Cell, Fact, Sizes};

impl Sizes {
    // How many components there are: the nodes and the edges.
    pub fn components(self) -> usize
        ensures { result ≡ components self }
    {
        self.nodes as usize + self.edges as usize
    }

    // Whether a label moves: the labels below `fixed` are fixed, and the next `moving` ones move.
    pub fn moves(self, label: u8) -> bool
        ensures { result ≡ moves self label }
    {
        self.fixed <= label && (label as u16) < self.fixed as u16 + self.moving as u16
    }

    // Whether there is such an hour: the last one is included.
    pub fn has_hour(self, hour: u8) -> bool
        ensures { result ≡ nat_le hour self.last }
    {
        hour <= self.last
    }

    // Whether there is such a component.
    pub fn has_component(self, component: u16) -> bool
        ensures { result ≡ nat_lt component (components self) }
    {
        (component as usize) < self.components()
    }

    // Whether there is such a cell.
    pub fn inside(self, cell: Cell) -> bool
        ensures { result ≡ inside self cell.hour cell.component cell.label }
    {
        self.has_hour(cell.hour) && self.has_component(cell.component) && self.moves(cell.label)
    }

    // Where the bound of a component's fixed label stands among the fixed bounds.
    pub fn fixed_place(self, component: u16, label: u8) -> usize
        ensures { result ≡ component * self.fixed + label }
    {
        component as usize * self.fixed as usize + label as usize
    }

    // How many cells there are: one for each hour, component and moving label.
    pub fn cells(self) -> usize
        ensures { result ≡ cell_count self }
    {
        (self.last as usize + 1) * self.components() * self.moving as usize
    }

    // Where a cell stands among the cells: hour by hour, in an hour component by component, there label by label.
    // None where there is no such cell.
    pub fn place(self, cell: Cell) -> Option<usize>
        ensures { Placed self cell.hour cell.component cell.label result }
    {
        if self.inside(cell) {
            let row = cell.hour as usize * self.components() + cell.component as usize;
            Some(row * self.moving as usize + (cell.label - self.fixed) as usize)
        } else {
            None
        }
    }
}

impl<S: Copy> Fact<S> {
    // Whether a fact is inside the house: its component and its hours are, its label moves, and it does not end before
    // it begins.
    pub fn inside(&self, sizes: Sizes) -> bool
        ensures { result ≡ fact_inside sizes self.now }
    {
        let hours = self.from <= self.to && sizes.has_hour(self.to);
        sizes.has_component(self.component) && sizes.moves(self.label) && hours
    }

    // The cell that a fact is about at an hour.
    pub fn cell(&self, hour: u8) -> Cell
        ensures { result ≡ record { hour = hour; component = self.now.component; label = self.now.label } }
    {
        Cell {
            hour,
            component: self.component,
            label: self.label,
        }
    }
}
