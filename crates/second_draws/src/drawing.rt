// Good files, drawn by chance to given counts.
use crate::chance::Chance;
use second_files::{File, minus, person_at, plus, set_of, up};

// What a file is drawn to: its counts, and the chances. Each person and each step has each role with a chance of `odds` in 8, and each pair is in a table
// with a chance of `pairs` in 8. The steps of a rule lie within a stretch of `reach` steps. A mild file has a role for every step, and no rule that asks
// for the same person or of a step about itself.
#[derive(Clone, Copy)]
pub struct Shape {
    pub people: usize,
    pub steps: usize,
    pub roles: usize,
    pub tables: usize,
    pub rules: usize,
    pub odds: usize,
    pub pairs: usize,
    pub reach: usize,
    pub mild: bool,
}

// A file of this shape. No step, no rule.
pub fn draw(chance: &mut Chance, shape: Shape) -> File {
    let mut file = File::empty();
    put_header(&mut file, shape);
    draw_people(chance, &mut file, shape);
    draw_steps(chance, &mut file, shape);
    draw_tables(chance, &mut file, shape);
    draw_rules(chance, &mut file, shape);
    file.length = file.total();
    file
}

fn put_header(file: &mut File, shape: Shape) {
    file.put_word(0, 1);
    file.put_word(2, shape.people);
    file.put_word(4, shape.steps);
    file.put_word(6, shape.roles);
    file.put_word(8, shape.tables);
    file.put_word(10, if shape.steps == 0 { 0 } else { shape.rules });
    file.put_word(12, 24);
    file.put_word(14, file.step_at(0));
    file.put_word(16, file.row_at(0));
    file.put_word(18, file.rule_at(0));
    file.put_word(20, file.total());
    file.put_word(22, 0);
}

fn draw_people(chance: &mut Chance, file: &mut File, shape: Shape) {
    for u in 0..shape.people {
        file.put_word(person_at(u), chance.some_of(shape.roles, shape.odds));
    }
}

fn draw_steps(chance: &mut Chance, file: &mut File, shape: Shape) {
    for s in 0..shape.steps {
        let at = file.step_at(s);
        let roles = chance.some_of(shape.roles, shape.odds);
        let role = set_of(chance.below(shape.roles));
        let before = chance.some_of(s, 2);
        file.put_word(at, if shape.mild { roles | role } else { roles });
        file.put_byte(plus(at, 2), before);
        file.put_byte(plus(at, 3), 0);
    }
}

fn draw_tables(chance: &mut Chance, file: &mut File, shape: Shape) {
    for i in 0..file.rows() {
        file.put_long(file.row_at(i), chance.some_of(shape.people, shape.pairs));
    }
}

fn draw_rules(chance: &mut Chance, file: &mut File, shape: Shape) {
    for r in 0..file.rules() {
        draw_rule(chance, file, file.rule_at(r), shape);
    }
}

fn draw_rule(chance: &mut Chance, file: &mut File, at: usize, shape: Shape) {
    let form = chance.from_to(1, 3);
    let from = chance.below(plus(1, minus(shape.steps, shape.reach)));
    let width = shape.reach.min(minus(shape.steps, from));
    let step = chance.below(width);
    let group = draw_group(chance, width, form);
    let relation = chance.below(plus(2, shape.tables));
    file.put_byte(at, form);
    file.put_byte(plus(at, 2), plus(from, step));
    if shape.mild {
        file.put_byte(plus(at, 1), relation.max(1));
        file.put_byte(plus(at, 3), up(others(group, step, width), from));
    } else {
        file.put_byte(plus(at, 1), relation);
        file.put_byte(plus(at, 3), up(group, from));
    }
}

// A set of the first n steps: one for form 1, else at least one.
fn draw_group(chance: &mut Chance, n: usize, form: usize) -> usize {
    let one = set_of(chance.below(n));
    if form == 1 {
        one
    } else {
        chance.some_of(n, 2) | one
    }
}

// The set without a step; where nothing is left, a step beside it.
fn others(group: usize, step: usize, n: usize) -> usize {
    let left = minus(group, group & set_of(step));
    if left != 0 {
        left
    } else if step == 0 {
        set_of(minus(n, 1).min(1))
    } else {
        set_of(minus(step, 1))
    }
}
