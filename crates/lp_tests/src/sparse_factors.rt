// Sparse factors of small matrices over residues.
use lp_sparse::{Entry, Factored, Factors, Field, Lines, Residue, factorize};
use std::alloc::{AllocError, Global};
use std::process::Abort;
use std::test::Fail;

// Adds a column with two numbers, each behind its row.
fn put_two(
    columns: &mut Lines<Residue>,
    upper: (usize, u64),
    lower: (usize, u64),
) -> Result<(), AllocError> {
    columns.put(upper.0, Residue::new(upper.1))?;
    columns.put(lower.0, Residue::new(lower.1))?;
    columns.end()
}

// Adds the columns of the matrix with the rows 2 1 0, 0 3 1 and 4 0 5.
fn put_three(columns: &mut Lines<Residue>) -> Result<(), AllocError> {
    put_two(columns, (0, 2), (2, 4))?;
    put_two(columns, (0, 1), (1, 3))?;
    put_two(columns, (1, 1), (2, 5))
}

// The residues of three words.
fn residues(words: [u64; 3]) -> [Residue; 3] {
    let [a, b, c] = words;
    [Residue::new(a), Residue::new(b), Residue::new(c)]
}

// The words of three residues.
fn words(list: [Residue; 3]) -> [u64; 3] {
    let [a, b, c] = list;
    [a.word(), b.word(), c.word()]
}

// Asserts that the factors solve the matrix, and its transpose.
fn assert_both<R: Abort>(rt: &R, factors: &Factors<Residue>) {
    let mut solution = residues([0, 0, 0]);
    factors.solve(&mut residues([4, 9, 19]), &mut solution);
    assert_eq!(*rt; words(solution), [1u64, 2, 3]);
    factors.solve_turned(&mut residues([14, 7, 17]), &mut solution);
    assert_eq!(*rt; words(solution), [1u64, 2, 3]);
}

// The factors of a matrix solve it and its transpose modulo the prime.
#[test]
fn solves_modulo_the_prime(rt: HostRuntime) -> Result<(), Fail> {
    let alloc = rt.alloc();
    let mut columns = Lines::new(alloc);
    put_three(&mut columns)?;
    match &factorize(alloc, columns.len(), &columns)? {
        Factored::Regular(factors) => assert_both(&rt, factors),
        Factored::Singular { .. } => panic!(rt; "singular"),
    }
    Ok(())
}

// The next of a list of numbers that look random, below 2^31. The state moves on.
fn next(state: &mut u64) -> u64 {
    *state = state
        .wrapping_mul(6364136223846793005)
        .wrapping_add(1442695040888963407);
    *state >> 33
}

// So many residues that look random.
fn drawn(alloc: Global, size: usize, state: &mut u64) -> Result<Vec<Residue>, AllocError> {
    let mut list = Vec::from_elem(alloc, Residue::zero(), size)?;
    for residue in list.as_mut_slice() {
        *residue = Residue::new(next(state));
    }
    Ok(list)
}

// Adds the column `j` of a square matrix: its entries are 1 or -1, few of them, and one on the diagonal.
fn put_sparse(
    columns: &mut Lines<Residue>,
    j: usize,
    size: usize,
    state: &mut u64,
) -> Result<(), AllocError> {
    for i in 0..size {
        let draw = next(state) % 12;
        if i == j || draw < 2 {
            columns.put(i, Residue::of(if draw % 2 == 0 { 1 } else { -1 }))?;
        }
    }
    columns.end()
}

// The columns of a square matrix whose entries are 1 or -1, with few in a column, and one on each place of the
// diagonal.
fn sparse(alloc: Global, size: usize, state: &mut u64) -> Result<Lines<Residue>, AllocError> {
    let mut columns = Lines::new(alloc);
    for j in 0..size {
        put_sparse(&mut columns, j, size, state)?;
    }
    Ok(columns)
}

// Adds a number times each entry of a column to the sum at the entry's place, modulo the prime.
fn add_column(sums: &mut [Residue], column: &[Entry<Residue>], number: Residue) {
    for entry in column {
        if let Some(sum) = sums.get_mut(entry.place) {
            let opposite = Residue::zero().less_product(Residue::new(1), entry.value);
            *sum = sum.less_product(number, opposite);
        }
    }
}

// The product of the square matrix with these columns and the vector `x`, modulo the prime.
fn product(
    alloc: Global,
    columns: &Lines<Residue>,
    x: &[Residue],
) -> Result<Vec<Residue>, AllocError> {
    let mut sums = Vec::from_elem(alloc, Residue::zero(), columns.len())?;
    for j in 0..x.len() {
        add_column(sums.as_mut_slice(), columns.line(j), x[j]);
    }
    Ok(sums)
}

// Whether there are as many sums as wanted ones, and each is the wanted one.
fn are_wanted(sums: &[Residue], wanted: &[Residue]) -> bool {
    if sums.len() != wanted.len() {
        return false;
    }
    for place in 0..sums.len() {
        if sums[place].word() != wanted[place].word() {
            return false;
        }
    }
    true
}

// The solution of the square matrix with these factors for a right side.
fn solution(
    alloc: Global,
    factors: &Factors<Residue>,
    right: &[Residue],
) -> Result<Vec<Residue>, AllocError> {
    let mut used = Vec::from_slice(alloc, right)?;
    let mut x = Vec::from_elem(alloc, Residue::zero(), right.len())?;
    factors.solve(&mut used, &mut x);
    Ok(x)
}

// Asserts that the solution of the matrix with these columns and factors, times the matrix, is the right side.
fn assert_solved<R: Abort>(
    rt: &R,
    alloc: Global,
    columns: &Lines<Residue>,
    factors: &Factors<Residue>,
    right: &[Residue],
) -> Result<(), AllocError> {
    let sums = product(alloc, columns, &solution(alloc, factors, right)?)?;
    assert!(*rt; are_wanted(&sums, right));
    Ok(())
}

// Whether the next sparse matrix of this size is regular. If so, it is asserted to be solved for the right side that is
// drawn behind it.
fn is_solved<R: Abort>(
    rt: &R,
    alloc: Global,
    size: usize,
    state: &mut u64,
) -> Result<bool, AllocError> {
    let columns = sparse(alloc, size, state)?;
    let right = drawn(alloc, size, state)?;
    match &factorize(alloc, columns.len(), &columns)? {
        Factored::Regular(factors) => {
            assert_solved(rt, alloc, &columns, factors, &right)?;
            Ok(true)
        }
        Factored::Singular { .. } => Ok(false),
    }
}

// Of each sparse matrix that is regular, the solution times the matrix is the right side.
#[test]
fn solves_sparse_matrices(rt: HostRuntime) -> Result<(), Fail> {
    let mut state = 7u64;
    let mut solved = 0u32;
    for round in 0..6usize {
        if is_solved(&rt, rt.alloc(), 5 + 3 * round, &mut state)? {
            solved = solved.saturating_add(1);
        }
    }
    assert!(rt; solved > 3);
    Ok(())
}
