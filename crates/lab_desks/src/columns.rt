// Rows of chairs, and the columns that they make.

ghost use Rattle.std.specs.Prelude.{◌≡◌, [], ◌<◌, ◌≤◌, length, vec_capacity, All};
ghost use Rattle.lab_desks.specs.Columns.{TakesLast};

/// Takes the last of each row, in order. No row is empty, and the column is, with room for one of each.
pub fn last_of_each<X: Drop>(rows: &mut [Vec<X>], column: &mut Vec<X>)
    requires some { All (λ row. 0 < length row.items) rows.old }
    requires room { (column.old.items ≡ []) × (length rows.old ≤ vec_capacity column.old) }
    ensures { TakesLast rows.old rows.new column.new.items }
{
    for row in rows.iter_mut() {
        let Some(last) = row.pop() else {
            unreachable!()
        };
        let Ok(()) = column.push(last) else {
            unreachable!()
        };
    }
}
