// A row of samples, read at any place.
ghost use Rattle.std.specs.Prelude.{◌≡◌, ◌+◌, ◌^◌, ◌<◌};
ghost use Rattle.std.specs.Float.{nan};

use search_refine::Point;

// A sample of the grid: its angle, and the error's four components there.
#[derive(Clone, Copy, Default)]
pub struct Sample {
    pub x: f64,
    pub y: [f64; 4],
}

// One of the error's components, over the grid's samples.
#[derive(Clone, Copy)]
pub struct Column<'a> {
    pub samples: &'a [Sample],
    pub i: u8,
    pub ghost in_range: { i < 4 },
}

// A component of the grid's samples, or the points of an edge.
#[derive(Clone, Copy)]
pub enum Row<'a> {
    Grid(Column<'a>),
    Edge(&'a [Point]),
}

pub fn not_a_number() -> f64
    ensures { result ≡ nan }
{
    0.0 / 0.0
}

impl<'a> Row<'a> {
    ghost use Rattle.search_refine.specs.Point.{point_of};
    ghost use Rattle.search_pairs.specs.Row.{nowhere, points, len_of};

    pub fn len(self) -> usize
        ensures len { result ≡ len_of self.entry }
        ensures small { result < 2 ^ 63 }
    {
        match self {
            Row::Grid(column) => column.samples.len(),
            Row::Edge(row) => row.len(),
        }
    }

    // What stands beyond the end of a row, so that a place needs no bound.
    fn beyond() -> Point
        ensures { point_of result ≡ nowhere }
    {
        Point {
            x: not_a_number(),
            y: not_a_number(),
        }
    }

    pub fn at(self, l: usize) -> Point
        ensures { point_of result ≡ points self.entry l }
    {
        match self {
            Row::Grid(column) => {
                if l < column.samples.len() {
                    let s = column.samples[l];
                    return Point {
                        x: s.x,
                        y: s.y[column.i as usize],
                    };
                }
                Row::beyond()
            }
            Row::Edge(row) => {
                if l < row.len() {
                    return row[l];
                }
                Row::beyond()
            }
        }
    }

    // The sample d places behind l.
    pub fn behind(self, l: usize, d: u8) -> Point
        ensures { point_of result ≡ points self.entry (l + d) }
    {
        if self.len() <= l {
            return Row::beyond();
        }
        self.at(l + d as usize)
    }
}
