//! Laws of the forms.

ghost use Rattle.std.specs.Prelude.{◌≡◌, ℕ, Bool, true, false, List, length, map, Some, None};
ghost use Rattle.std.specs.List.{list_all};
ghost use Rattle.json.specs.Json.{document};
ghost use Rattle.gufi_base.specs.declared.record.Row.{Row};
ghost use Rattle.gufi_base.specs.Basics.{is_empty, split, text_lines};
ghost use Rattle.gufi_base.specs.Paths.{Components};
ghost use Rattle.gufi_base.specs.Rows.{are_bytes, depth_below};
ghost use Rattle.gufi_select.specs.Columns.{Select, select_lines, value_at, value_text};
ghost use Rattle.gufi_forms.specs.declared.form.Form.TheVariants.{Lines, Json};
ghost use Rattle.gufi_forms.specs.Escapes.{escaped, unescaped};
ghost use Rattle.gufi_forms.specs.Forms.{form_lines, form_text, is_held};
ghost use Rattle.gufi_forms.specs.Names.{first_twice};
ghost use Rattle.gufi_forms.specs.Objects.{told_values};

/// Lines that are neither escaped nor headed are those of the SELECT.
pub fn plain_lines_are_selected()
    ensures { (select : Select) → (start : Components) → (rows : List Row) → form_text (Lines false false) select start rows ≡ select_lines select start rows }
{}

/// What is escaped reads back: a text unescaped is what was escaped; and the lines of rows, each cut at its tabs and each piece
/// unescaped, are the texts of the rows' columns.
pub fn escaped_lines_read_back()
    ensures texts { (bytes : List ℕ) → are_bytes bytes ≡ true → unescaped (escaped bytes) ≡ Some bytes }
    ensures lines { (header : Bool) → (select : Select) → (start : Components) → (rows : List Row) → is_empty select.columns ≡ false → list_all is_held rows ≡ true
        → map (λ (l : List ℕ). map unescaped (split 9 l)) (text_lines (form_lines (Lines true header) select start rows))
        ≡ map (λ (row : Row). map (λ column. Some (value_text (value_at column row (depth_below (length start) row)))) select.columns) rows }
{}

/// What JSON objects tell reads back, where no column stands twice: the objects in the lines of rows, as the kit's `json` reads
/// them, have the values of the rows' columns. A column is told by the member of its name, or else by that whose name ends with
/// `_bytes`, unescaped.
pub fn json_lines_read_back()
    ensures { (select : Select) → (start : Components) → (rows : List Row) → first_twice select.columns ≡ None → list_all is_held rows ≡ true
        → map (λ (l : List ℕ). told_values select.columns (document l)) (text_lines (form_lines Json select start rows))
        ≡ map (λ (row : Row). map (λ column. Some (value_at column row (depth_below (length start) row))) select.columns) rows }
{}
